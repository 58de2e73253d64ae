//! The protocols of the library, and their names.

ghost use Rattle.std.specs.Prelude.{◌≡◌};
ghost use Rattle.std.specs.Str.{bytes_eq};
ghost use Rattle.table_library.specs.Protocols.{protocol_table, kind_named};

/// A protocol: copy-back by invalidation, copy-back by update, write-through, write-through by
/// broadcast, copy-back with one copy at a time, and no cache.
#[derive(Clone, Copy, Debug, PartialEq, Eq)]
pub enum Kind {
    Invalidate,
    Update,
    Through,
    ThroughBroadcast,
    Exclusive,
    Uncached,
}

/// All protocols.
pub const KINDS: [Kind; 6] = [
    Kind::Invalidate,
    Kind::Update,
    Kind::Through,
    Kind::ThroughBroadcast,
    Kind::Exclusive,
    Kind::Uncached,
];

impl Kind {
    /// The name of the protocol's table.
    pub fn name(self) -> &'static str
        ensures { result.now ≡ (protocol_table self).name }
    {
        match self {
            Kind::Invalidate => "cb",
            Kind::Update => "up",
            Kind::Through => "wt",
            Kind::ThroughBroadcast => "wb",
            Kind::Exclusive => "ex",
            Kind::Uncached => "un",
        }
    }
}

fn has_name(kind: Kind, name: &[u8]) -> bool
    ensures { result ≡ bytes_eq name.now (protocol_table kind).name }
{
    name == kind.name().as_bytes()
}

/// The protocol whose table has this name. `None` where the name is that of none of them.
pub fn kind_of(name: &[u8]) -> Option<Kind>
    ensures { result ≡ kind_named name.now }
{
    KINDS.iter().copied().find(|kind| has_name(*kind, name))
}
