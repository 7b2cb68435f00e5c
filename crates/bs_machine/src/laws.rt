// Laws of machines. Each is a function without a body, whose contract is the law.
ghost use Rattle.std.specs.Prelude.{◌≡◌, ◌≤◌, ℕ, IsTrue, List, Ok};
ghost use Rattle.bs_net.specs.Home.{has_length};
ghost use Rattle.bs_machine.specs.File.{machine_in};
ghost use Rattle.bs_machine.specs.Machine.{MachineOf, flat_in, machine_view};
ghost use Rattle.bs_machine.specs.declared.fitted.Fitted.{Fitted};

/// Each machine that a file gives (`file`), or a number of processors and a latency (`flat`), can be fitted to
/// every number of chares that its place allows: a fitted machine of these numbers is there.
pub fn fitted_machines()
    ensures file { (bytes : List ℕ) (m : MachineOf) (chares : ℕ) → machine_in bytes ≡ Ok m → 1 ≤ chares → chares ≤ 65536 → IsTrue (has_length m.place chares) → (f : Fitted) × (machine_view f.machine ≡ m) × (f.chares ≡ chares) }
    ensures flat { (processors latency : ℕ) (m : MachineOf) (chares : ℕ) → flat_in processors latency ≡ Ok m → 1 ≤ chares → chares ≤ 65536 → IsTrue (has_length m.place chares) → (f : Fitted) × (machine_view f.machine ≡ m) × (f.chares ≡ chares) }
{}
