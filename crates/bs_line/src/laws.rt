// Laws of corrections.
ghost use Rattle.std.specs.Prelude.{◌≡◌, ◌≢◌, List};
ghost use Rattle.bs_log.specs.Lists.{Mem};
ghost use Rattle.bs_log.specs.declared.log.MailRef.{MailRef};
ghost use Rattle.bs_times.specs.Net.{Net, Ticks};
ghost use Rattle.bs_line.specs.declared.corrections.Correction.{Correction};
ghost use Rattle.bs_line.specs.Line.{Corrects, changes};

/// Each correction is of one of the messages whose tick changed, and names the processor that it goes to
/// and both ticks (`sound`). Each message whose tick changed has one (`whole`).
pub fn corrections_are_changes()
    ensures sound { (net : Net) (was tick : Ticks) (ms : List MailRef) (c : Correction) → Mem c (changes net was tick ms) → Mem c.mail ms × Corrects net was tick c }
    ensures whole { (net : Net) (was tick : Ticks) (ms : List MailRef) (m : MailRef) → Mem m ms → was m ≢ tick m → (c : Correction) × (c.mail ≡ m) × Mem c (changes net was tick ms) }
{}
