// What a chare does next.
ghost use Rattle.std.specs.Prelude.{◌≡◌, ◌≤◌, ◌<◌, ℕ, [], true, false, All, IfOk};
ghost use Rattle.std.specs.Option.{ForSome, option_copied};
ghost use Rattle.bs_match.specs.Mail.{lookup};
ghost use Rattle.bs_semantics.specs.Growth.{PartOf};
ghost use Rattle.bs_semantics.specs.Run.{Lookup, Run};
ghost use Rattle.bs_history.specs.Mail.{with_extra};
ghost use Rattle.bs_history.specs.Trail.{run_size};

use crate::causes::Causes;
use crate::fault::HistoryFault;
use crate::frame::{Frame, Listed, alone, is_done};
use crate::ground::{Ground, State};
use crate::resume::resume;
use crate::trail::{Lists, Trail};
use bs_block::Env;
use bs_check::Accepted;
use bs_check::laws::accepted_programs;
use bs_log::Message;
use bs_match::Mail;
use bs_tree::List;
use std::alloc::{AllocError, Global};

/// What a chare does next, once its mail holds what it waits for.
#[derive(Drop)]
pub struct Course<'p> {
    state: State,
    frames: List<Frame<'p>>,
}

/// How far a chare has come under a mail: what it wrote for good since it last stopped, what it shows behind
/// that under this mail, whether its body ended, and what it does next.
#[derive(Drop)]
pub struct Stage<'p> {
    pub written: Lists,
    pub shown: Lists,
    pub ended: bool,
    pub course: Course<'p>,
}

impl<'p> Course<'p> {
    ghost use Rattle.std.specs.Prelude.{◌≡◌, ◌≤◌, ◌<◌, ℕ, All, IfOk};
    ghost use Rattle.std.specs.Option.{ForSome, option_copied};
    ghost use Rattle.bs_match.specs.Mail.{lookup};
    ghost use Rattle.bs_semantics.specs.Growth.{PartOf};
    ghost use Rattle.bs_semantics.specs.Run.{Lookup, Run};
    ghost use Rattle.bs_history.specs.Mail.{with_extra};
    ghost use Rattle.bs_history.specs.Trail.{run_size};
    ghost use Rattle.bs_history.specs.Course.{GoesOn, IsCourse, nothing};

    /// A chare of an accepted program that has written nothing.
    pub fn new(alloc: Global, accepted: &'p Accepted, chare: u32) -> Result<Course<'p>, AllocError>
        requires { chare < accepted.now.program.chares }
        ensures { IfOk result (λ course. (limit : ℕ) (mail : Lookup) → IsCourse accepted.now.program limit chare mail nothing course) }
    {
        let state = State {
            env: Env::new(alloc, accepted, chare)?,
            causes: Causes::new(alloc),
        };
        // Its names are declared as what they are used for.
        accepted_programs();
        let body = Listed {
            list: accepted.program().body.as_slice(),
            place: 0,
            number: 1,
            path: Vec::new(alloc),
        };
        let frames = alone(alloc, Frame::List(body))?;
        Ok(Course { state, frames })
    }

    /// Goes on as far as the chare can under a mail with maybe one message more, whose messages have depths of
    /// at most 262,144, behind what it wrote, which has this size. The limit of the size of its history is from
    /// 1 to 262,144.
    ///
    /// `Long` comes exactly where the size of the history is above the limit, but for want of memory.
    pub fn go_on<'m>(
        self,
        alloc: Global,
        accepted: &'p Accepted,
        chare: u32,
        mail: &'m Mail,
        more: Option<&'m Message>,
        limit: u64,
        done: u64,
    ) -> Result<Stage<'p>, HistoryFault>
        requires limit { (done ≤ limit) × (limit ≤ 262144) }
        requires shallow { All (λ m. m.origin.depth ≤ 262144) mail.now }
        requires shallow_more { ForSome more (λ m. m.now.origin.depth ≤ 262144) }
        requires course { (k : Run) × (a : Lookup) × IsCourse accepted.now.program limit chare a k self × PartOf a (with_extra (option_copied more) (lookup mail.now)) × (done ≡ run_size k) }
        ensures { (k : Run) (a : Lookup) → IsCourse accepted.now.program limit chare a k self.entry → PartOf a (with_extra (option_copied more.entry) (lookup mail.now)) → done ≡ run_size k → GoesOn accepted.now.program limit chare (with_extra (option_copied more.entry) (lookup mail.now)) k result }
    {
        let Course { mut state, frames } = self;
        let ground = Ground {
            alloc,
            accepted,
            mail,
            more,
            this: chare,
            limit,
            done,
            room: limit - done,
        };
        let mut trail = Trail::new(alloc, Vec::new(alloc));
        let frames = resume(&ground, frames, &mut trail, &mut state)?;
        let ended = is_done(&frames);
        let shown = trail.take_shown(alloc, ended);
        let written = trail.into_lists();
        Ok(Stage {
            written,
            shown,
            ended,
            course: Course { state, frames },
        })
    }
}
