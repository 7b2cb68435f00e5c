// Laws of the definitions. Each is a function without a body, whose contract is the law.
ghost use Rattle.std.specs.Prelude.{◌≡◌, ◌≤◌, ◌<◌, ◌+◌, ℕ, List, None};
ghost use Rattle.bs_tree.specs.declared.tree.Program.{Program};
ghost use Rattle.bs_tree.specs.declared.tree.Stmt.{Stmt};
ghost use Rattle.bs_log.specs.declared.history.Message.{Message};
ghost use Rattle.bs_log.specs.declared.history.Block.{Block};
ghost use Rattle.bs_log.specs.declared.history.History.{History};
ghost use Rattle.bs_log.specs.Size.{size_all};
ghost use Rattle.bs_log.specs.Lists.{Mem};
ghost use Rattle.bs_log.specs.Sound.{Once};
ghost use Rattle.bs_log.specs.Messages.{sent};
ghost use Rattle.bs_semantics.specs.Run.{Lookup, meant, history};
ghost use Rattle.bs_semantics.specs.Rounds.{
  Undecided,
  CleanAt,
  Closed,
  SameMessages,
  mail_to,
  histories,
  round,
};
ghost use Rattle.bs_semantics.specs.Growth.{RunGrows, HistoryGrows};

/// **Growth.** Where one mail is part of another, the blocks, the keys asked and the traps of a run
/// are among those under the larger mail, in their order and with the same contents; and a run that
/// comes to its end is the same under both. So it is for each statement, from each state and at each
/// path, and for the history of each chare, whose sends are then among the others too.
///
/// There is no premise on the program. It rests on the rule that each part of an `overlap` starts
/// from the overlap's own variables and causes.
pub fn growth()
    ensures statements { (p : Program) (limit c : ℕ) (s : Stmt) → RunGrows (meant p limit c s).does }
    ensures histories { (p : Program) (limit c : ℕ) → HistoryGrows p limit c }
{}

ghost use Rattle.bs_semantics.specs.Depth.{RunReaches, IsShallow, all_blocks};

/// **Depth.** Where a mail is part of another, and lacks none of its messages that are less deep than
/// some number, a run under it lacks none of the other run's blocks up to that depth; and where the
/// other run ends with causes less deep than that, it ends in the same state.
///
/// There is no premise on the program.
pub fn depth()
    ensures { (p : Program) (limit c : ℕ) (s : Stmt) → RunReaches (meant p limit c s).does }
{}

/// **Confluence.** Histories are closed where each is that of its chare under exactly what they send,
/// no chare is sent or asks one key twice, and their size is at most the limit. The Clean round is
/// closed (`clean`); where histories are closed, the verdict is Clean and they are the Clean round
/// (`closed`); so they are the Clean round of each verdict (`only`).
///
/// There is no premise on the program. Messages that only justify each other are in no closed set,
/// since depth rises along causes.
pub fn confluence()
    ensures clean { (p : Program) (limit n : ℕ) → CleanAt p limit n → Closed p limit (round p limit n) }
    ensures closed { (p : Program) (limit : ℕ) (hs : List History) → Closed p limit hs → (n : ℕ) × CleanAt p limit n × (hs ≡ round p limit n) }
    ensures only { (p : Program) (limit n : ℕ) (hs : List History) → CleanAt p limit n → Closed p limit hs → hs ≡ round p limit n }
{}

ghost use Rattle.bs_semantics.specs.Starting.{AllIn};

/// In closed histories no block is deeper than there are blocks, since each depth below a block's own
/// is the depth of some block (`blocks`); and no message is deeper than the limit (`messages`). So it
/// is under every mail that holds nothing but what the histories under it send (`rounds`).
pub fn chains()
    ensures blocks { (p : Program) (limit : ℕ) (hs : List History) → Closed p limit hs → IsShallow hs }
    ensures messages { (p : Program) (limit : ℕ) (hs : List History) → Closed p limit hs → (m : Message) → Mem m (sent hs) → m.origin.depth ≤ limit }
    ensures rounds { (p : Program) (limit : ℕ) (ms : List Message) → AllIn ms (sent (histories p limit ms)) → size_all (histories p limit ms) ≤ limit → (m : Message) → Mem m (sent (histories p limit ms)) → m.origin.depth ≤ limit }
{}

ghost use Rattle.bs_semantics.specs.Verdict.{Verdict, IsVerdict, ambiguous};

/// **One verdict.** Each program and limit has a verdict (`some`), and only one (`one`). One of the
/// rounds from 0 to the limit is decided, as each undecided round sends a new message (`soon`). A key
/// is named as sent or asked twice exactly where one is (`named`).
pub fn verdict()
    ensures some { (p : Program) (limit : ℕ) → (v : Verdict) × IsVerdict p limit v }
    ensures soon { (p : Program) (limit : ℕ) → ((m : ℕ) → m < limit + 1 → Undecided p limit m) → ⊥ }
    ensures named { (hs : List History) → (ambiguous hs ≡ None → Once hs) × (Once hs → ambiguous hs ≡ None) }
    ensures one { (p : Program) (limit : ℕ) (v w : Verdict) → IsVerdict p limit v → IsVerdict p limit w → v ≡ w }
{}

ghost use Rattle.bs_semantics.specs.Spending.{HasNoIdleLoop, IsUncut};

/// The bound on the turns of a loop is never felt within the limit: a history whose size is at most
/// the limit is the same under each greater limit.
///
/// The premise is that no loop of the program is idle: then a turn that ends has made a block, so more
/// turns than the limit make more blocks than the limit.
pub fn cut()
    ensures { (p : Program) → HasNoIdleLoop p → IsUncut p }
{}

ghost use Rattle.bs_log.specs.Rising.{CausesRise, Rising};
ghost use Rattle.bs_semantics.specs.Orderly.{IsOrderly, IsNumbered, PlacesHaveOneDepth};

/// Every history is in order: its blocks and traps rise by path, and so do the keys asked and the
/// waits, of which one `when` gives several at one path; each block rests on blocks before it and on
/// messages of the mail, and is 1 deeper than the deepest of them; what is waited for isn't in the
/// mail; and where the body ended there is no trap and no wait (`histories`). All stands at statements
/// of the program, and the traps and waits rise by statement too (`numbers`). Blocks that rise by path
/// are fixed by which blocks they are (`one`).
///
/// The causes of a block rise (`causes`), with the premise that the mail doesn't hold two messages
/// from one place with two depths. For the rest there is no premise on the program or on the mail.
pub fn orderly()
    ensures histories { (p : Program) (limit c : ℕ) (mail : Lookup) → IsOrderly c mail (history p limit c mail) }
    ensures numbers { (p : Program) (limit c : ℕ) (mail : Lookup) → IsNumbered p (history p limit c mail) }
    ensures causes { (p : Program) (limit c : ℕ) (mail : Lookup) → PlacesHaveOneDepth mail → (x : Block) → Mem x (history p limit c mail).blocks → CausesRise x }
    ensures one { (xs ys : List Block) → Rising xs → Rising ys → ((x : Block) → Mem x xs → Mem x ys) → ((x : Block) → Mem x ys → Mem x xs) → xs ≡ ys }
{}

ghost use Rattle.bs_semantics.specs.Proper.{IsProper};

/// Every block costs from 1 to 2^32; its sends go to chares, have at most 2^30 bytes and offsets from
/// 1 to the cost, and none is sent at an offset above that of a later one.
///
/// There is no premise on the program or on the mail. A program without chares counts as one that has
/// chare 0.
pub fn blocks()
    ensures { (p : Program) (limit c : ℕ) (mail : Lookup) (x : Block) → Mem x (history p limit c mail).blocks → IsProper p x }
{}

ghost use Rattle.bs_semantics.specs.ClosedTest.{Passes};

/// Closed histories pass a test that looks at them alone and not at the program's body (`passes`). The
/// mail that they are taken under may hold what they send in any order, and a message several times,
/// as long as it holds nothing else (`order`). And the causes of each of their blocks rise (`causes`).
pub fn closed_sets()
    ensures passes { (p : Program) (limit : ℕ) (hs : List History) → Closed p limit hs → Passes p limit hs }
    ensures order { (p : Program) (limit : ℕ) (ms : List Message) (hs : List History) → hs ≡ histories p limit ms → Once hs → size_all hs ≤ limit → SameMessages ms (sent hs) → Closed p limit hs }
    ensures causes { (p : Program) (limit : ℕ) (hs : List History) → Closed p limit hs → (x : Block) → Mem x (all_blocks hs) → CausesRise x }
{}

ghost use Rattle.bs_log.specs.ClosedTest.{LooksClosed};

/// Closed histories of a program that has from 1 to 65536 chares, at a limit of at most 262144, pass
/// the test of closed histories that the log's own words state.
pub fn looks_closed()
    ensures { (p : Program) (limit : ℕ) (hs : List History) → limit ≤ 262144 → 1 ≤ p.chares → p.chares ≤ 65536 → Closed p limit hs → LooksClosed hs }
{}

ghost use Rattle.bs_semantics.specs.Serial.{Started, histories_at, IsClean};
ghost use Rattle.bs_semantics.specs.Starting.{AreBlocks, NoneEnabled, IsWithinRound};

/// Where blocks that were started, in any order, are blocks of the histories under what they sent, these
/// histories are clean, and no further block can be started, the histories are closed (`stuck`). And
/// under any messages of the Clean round the histories are within that round, so they aren't too long,
/// and nothing is sent or asked twice (`within`).
pub fn starting()
    ensures stuck { (p : Program) (limit : ℕ) (bs : List Started) → AreBlocks p limit bs → NoneEnabled p limit bs → IsClean p limit bs → Closed p limit (histories_at p limit bs) }
    ensures within { (p : Program) (limit n : ℕ) (ms : List Message) → CleanAt p limit n → AllIn ms (sent (round p limit n)) → IsWithinRound p limit n ms }
{}

ghost use Rattle.bs_semantics.specs.Serial.{IsSerial, Machine, Simulated};

/// The serial machine model gives at most one answer for a program, a limit and a machine.
pub fn one_serial()
    ensures { (p : Program) (limit : ℕ) (m : Machine) (r s : Simulated) → IsSerial p limit m r → IsSerial p limit m s → r ≡ s }
{}

ghost use Rattle.bs_semantics.specs.Serial.{unclean, timed};

/// **The model always has an answer.** For every program, limit and machine the serial machine model
/// gives an answer (`some`). So it gives `unclean` where no round is Clean (`unclean`): an outcome
/// would show one.
///
/// There is no premise on the program or on the machine. The model comes to its end since the blocks
/// that it starts are blocks of the histories, each once, and in a clean state these are no more than
/// the limit.
pub fn some_serial()
    ensures some { (p : Program) (limit : ℕ) (m : Machine) → (r : Simulated) × IsSerial p limit m r }
    ensures unclean { (p : Program) (limit : ℕ) (m : Machine) → ((n : ℕ) → CleanAt p limit n → ⊥) → IsSerial p limit m unclean }
{}

ghost use Rattle.bs_log.specs.declared.outcome.Outcome.{Outcome};
ghost use Rattle.bs_semantics.specs.Reached.{IsReached, Shows};

/// **Serial.** Where the verdict is Clean, each state that the serial machine model reaches is clean
/// (`clean`), so its answer isn't `unclean` (`never_unclean`). Where it gives an outcome, the verdict
/// is Clean: the outcome's rows are the blocks of the Clean round in the order of (chare, path), and
/// its traps and waits are those of that round (`timed`).
///
/// There is no premise on the program or on the machine. The starts in the rows are the model's own;
/// what they are isn't said here.
pub fn serial()
    ensures clean { (p : Program) (limit n : ℕ) (m : Machine) (bs : List Started) → CleanAt p limit n → IsReached p limit m bs → IsClean p limit bs }
    ensures never_unclean { (p : Program) (limit n : ℕ) (m : Machine) → CleanAt p limit n → IsSerial p limit m unclean → ⊥ }
    ensures timed { (p : Program) (limit : ℕ) (m : Machine) (o : Outcome) → IsSerial p limit m (timed o) → (n : ℕ) × CleanAt p limit n × Shows p limit m n o }
{}

ghost use Rattle.bs_semantics.specs.Examples.{ExchangeRuns, SendsTwice, AsksTwice, WaitsBoth};

/// Four small programs at the default limit, evaluated from the definitions: two chares that send to
/// each other, a key that is sent twice, a key that is asked twice, and two chares that wait for each
/// other.
pub fn worked_examples()
    ensures exchange { ExchangeRuns 262144 }
    ensures sent_twice { SendsTwice 262144 }
    ensures asked_twice { AsksTwice 262144 }
    ensures wait_for_each_other { WaitsBoth 262144 }
{}
