// What the next block of a chare rests on.
ghost use Rattle.std.specs.Prelude.{◌≡◌, ◌∷◌, [], IfOk, OnOk, map, reverse};
ghost use Rattle.std.specs.Ordering.{nat_cmp};
ghost use Rattle.std.specs.Cmp.Lexicographic.{slice_cmp};
ghost use Rattle.bs_semantics.specs.Run.{depth_of, greatest, no_causes, union, with_mail};
ghost use Rattle.bs_history.specs.Causes.{cause_of};

use crate::ordered::{Ordered, put_items};
use bs_log::{Message, Origin, copy_origins, copy_path};
use bs_tree::{List, Path};
use std::alloc::{AllocError, Global};
use std::cmp::Ordering;
use std::marker::Model;
use std::mem;

// A block of the chare itself.
#[derive(Drop)]
pub(crate) struct Cause {
    path: Path,
    depth: u32,
}

impl Ordered for Cause {
    ghost use Rattle.bs_semantics.specs.Run.{cause_cmp};
    ghost use Rattle.bs_history.specs.Causes.{cause_of};

    ghost order = { λ a b. cause_cmp (cause_of a) (cause_of b) };

    fn compare(&self, other: &Cause) -> Ordering {
        compare_paths(&self.path, &other.path).then(self.depth.cmp(&other.depth))
    }
}

impl Ordered for Origin {
    ghost use Rattle.bs_semantics.specs.Run.{origin_cmp};

    ghost order = { origin_cmp };

    fn compare(&self, other: &Origin) -> Ordering {
        let place = self
            .index
            .cmp(&other.index)
            .then(self.depth.cmp(&other.depth));
        let sender = compare_paths(&self.path, &other.path);
        self.chare.cmp(&other.chare).then(sender.then(place))
    }
}

fn compare_paths(left: &Path, right: &Path) -> Ordering
    ensures { result ≡ slice_cmp nat_cmp left.now.0 right.now.0 }
{
    left.0.as_slice().cmp(right.0.as_slice())
}

// The blocks of the chare itself and the messages that its next block rests on.
#[derive(Drop)]
pub(crate) struct Causes {
    after: Vec<Cause>,
    mail: Vec<Origin>,
}

impl Model for Causes {
    ghost use Rattle.bs_semantics.specs.Run.{Causes as PlainCauses};
    ghost use Rattle.bs_history.specs.Causes.{causes_of};

    ghost Value = { PlainCauses };

    ghost view = { causes_of };
}

impl Causes {
    // No causes. It takes no memory.
    pub fn new(alloc: Global) -> Causes
        ensures { result ≡ no_causes }
    {
        Causes {
            after: Vec::new(alloc),
            mail: Vec::new(alloc),
        }
    }

    // The greatest depth of a cause, 0 without any. It takes no memory.
    pub fn depth(&self) -> u32
        ensures { result ≡ depth_of self.now }
    {
        after_depth(self.after.as_slice()).max(mail_depth(self.mail.as_slice()))
    }

    // Equal causes.
    pub fn copy(&self, alloc: Global) -> Result<Causes, AllocError>
        ensures { IfOk result (λ causes. causes ≡ self.now) }
    {
        let after = copy_causes(alloc, self.after.as_slice())?;
        let mail = copy_origins(alloc, self.mail.as_slice())?.into_vec();
        Ok(Causes { after, mail })
    }

    // The causes of both.
    pub fn union(self, other: Causes) -> Result<Causes, AllocError>
        ensures { IfOk result (λ causes. causes ≡ union self other) }
    {
        let Causes { after, mail } = self;
        let mut causes = other;
        put_items(after, &mut causes.after)?;
        put_items(mail, &mut causes.mail)?;
        Ok(causes)
    }

    // Messages more.
    pub fn add_messages(&mut self, alloc: Global, messages: Vec<Message>) -> Result<(), AllocError>
        ensures { OnOk result (self.new ≡ with_mail messages.items self.old) }
    {
        let mut origins = origins(alloc, messages)?;
        origins.reverse();
        put_items(origins, &mut self.mail)
    }

    // Takes the causes out, as paths of blocks and as messages, both in order. What is left is a block at
    // this path of this depth.
    pub fn hand_over(
        &mut self,
        alloc: Global,
        path: Path,
        depth: u32,
    ) -> Result<(List<Path>, List<Origin>), AllocError>
        ensures after { IfOk result (λ given. given.0 ≡ map (λ c. record { 0 = c.path }) self.old.after) }
        ensures mail { IfOk result (λ given. given.1 ≡ self.old.mail) }
        ensures left { OnOk result (self.new ≡ record { after = record { path = path.0; depth = depth } ∷ []; mail = [] }) }
    {
        let block = vec![in alloc; Cause { path, depth }]?;
        let after = mem::replace(&mut self.after, block);
        let mut mail = mem::replace(&mut self.mail, Vec::new(alloc));
        mail.reverse();
        Ok((paths(alloc, after)?, List::from_vec(mail)))
    }
}

// Where messages come from.
fn origins(alloc: Global, messages: Vec<Message>) -> Result<Vec<Origin>, AllocError>
    ensures { IfOk result (λ origins. origins.items ≡ map (λ m. m.origin) messages.items) }
{
    let mut origins = Vec::new(alloc);
    for message in messages {
        let Message { origin, .. } = message;
        origins.push(origin)?;
    }
    Ok(origins)
}

// The paths of the blocks, which come with the greatest first.
fn paths(alloc: Global, mut causes: Vec<Cause>) -> Result<List<Path>, AllocError>
    ensures { IfOk result (λ paths. paths ≡ map (λ c. record { 0 = c.path }) (map cause_of (reverse causes.items))) }
{
    causes.reverse();
    let mut paths = List::new(alloc);
    for cause in causes {
        paths.push(cause.path)?;
    }
    Ok(paths)
}

fn after_depth(causes: &[Cause]) -> u32
    ensures { result ≡ greatest (λ c. c.depth) causes.now }
{
    let mut depth: u32 = 0;
    for cause in causes {
        depth = depth.max(cause.depth);
    }
    depth
}

fn mail_depth(origins: &[Origin]) -> u32
    ensures { result ≡ greatest (λ o. o.depth) origins.now }
{
    let mut depth: u32 = 0;
    for origin in origins {
        depth = depth.max(origin.depth);
    }
    depth
}

fn copy_causes(alloc: Global, causes: &[Cause]) -> Result<Vec<Cause>, AllocError>
    ensures { IfOk result (λ copy. copy.items ≡ causes.now) }
{
    let mut copy = Vec::new(alloc);
    for cause in causes {
        let path = copy_path(alloc, &cause.path)?;
        copy.push(Cause {
            path,
            depth: cause.depth,
        })?;
    }
    Ok(copy)
}
