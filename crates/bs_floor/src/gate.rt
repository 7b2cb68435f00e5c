// What a thread passes before it gives a station back.

/// What `Floor::serve` calls before it puts a station back, while it still holds it. A test makes
/// threads meet there. A gate may take any time, and no floor's contract depends on what it does.
pub trait Gate {
    /// Called with the number of the seat that serves and the place of the station, both counted from
    /// 0.
    fn before_put(&self, seat: u32, station: u32);
}

/// The gate that does nothing.
#[derive(Debug, Drop)]
pub struct OpenGate;

impl Gate for OpenGate {
    fn before_put(&self, _seat: u32, _station: u32) {}
}
