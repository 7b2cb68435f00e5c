// The keys of a machine file.
ghost use Rattle.std.specs.Prelude.{◌≡◌};
ghost use Rattle.bs_machine.specs.Keys.{table_of, name_of, all_keys};

/// A key of a machine file. The order is that in which keys are refused.
#[derive(Clone, Copy, Debug, PartialEq, Eq, Drop)]
pub enum MachineKey {
    TorusSizes,
    TorusPerNode,
    PlaceKind,
    PlaceList,
    SpeedNum,
    SpeedDen,
    LatencySelf,
    LatencyLocal,
    LatencyBase,
    LatencyHop,
    LatencyBytesNum,
    LatencyBytesDen,
}

/// All keys, in their order.
pub(crate) fn all() -> [MachineKey; 12]
    ensures { result ≡ all_keys }
{
    [
        MachineKey::TorusSizes,
        MachineKey::TorusPerNode,
        MachineKey::PlaceKind,
        MachineKey::PlaceList,
        MachineKey::SpeedNum,
        MachineKey::SpeedDen,
        MachineKey::LatencySelf,
        MachineKey::LatencyLocal,
        MachineKey::LatencyBase,
        MachineKey::LatencyHop,
        MachineKey::LatencyBytesNum,
        MachineKey::LatencyBytesDen,
    ]
}

impl MachineKey {
    /// The table of the file in which the key stands, as `torus`.
    pub fn table(self) -> &'static str
        ensures { result.now ≡ table_of self }
    {
        match self {
            MachineKey::TorusSizes | MachineKey::TorusPerNode => "torus",
            MachineKey::PlaceKind | MachineKey::PlaceList => "place",
            MachineKey::SpeedNum | MachineKey::SpeedDen => "speed",
            MachineKey::LatencySelf
            | MachineKey::LatencyLocal
            | MachineKey::LatencyBase
            | MachineKey::LatencyHop
            | MachineKey::LatencyBytesNum
            | MachineKey::LatencyBytesDen => "latency",
        }
    }

    /// The name of the key in its table, as `sizes`.
    pub fn name(self) -> &'static str
        ensures { result.now ≡ name_of self }
    {
        match self {
            MachineKey::TorusSizes => "sizes",
            MachineKey::TorusPerNode => "per_node",
            MachineKey::PlaceKind => "kind",
            MachineKey::PlaceList => "list",
            MachineKey::SpeedNum => "num",
            MachineKey::SpeedDen => "den",
            MachineKey::LatencySelf => "self",
            MachineKey::LatencyLocal => "local",
            MachineKey::LatencyBase => "base",
            MachineKey::LatencyHop => "hop",
            MachineKey::LatencyBytesNum => "bytes_num",
            MachineKey::LatencyBytesDen => "bytes_den",
        }
    }
}
