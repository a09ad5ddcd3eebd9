// The kinds of declarations, and the words that tell them.
ghost use Rattle.std.specs.Prelude.{◌≡◌};
ghost use Rattle.declaration_rows.specs.Keywords.{word, kind_of};

// A kind of declarations that have a row, by the number in it.
#[derive(Clone, Copy, PartialEq, Eq, Debug)]
pub enum Kind {
    Enum = 1,
    Packet = 2,
    Struct = 3,
    Group = 4,
    Checksum = 5,
    CustomField = 6,
}

// All kinds.
const KINDS: [Kind; 6] = [
    Kind::Enum,
    Kind::Packet,
    Kind::Struct,
    Kind::Group,
    Kind::Checksum,
    Kind::CustomField,
];

impl Kind {
    // The word that a declaration of this kind starts with.
    fn word(self) -> &'static [u8]
        ensures { result.now ≡ word self }
    {
        match self {
            Kind::Enum => b"enum",
            Kind::Packet => b"packet",
            Kind::Struct => b"struct",
            Kind::Group => b"group",
            Kind::Checksum => b"checksum",
            Kind::CustomField => b"custom_field",
        }
    }
}

// The kind of a declaration at the front, by its word. A test has none.
pub fn kind_at(s: &[u8]) -> Option<Kind>
    ensures { result ≡ kind_of s.now }
{
    KINDS
        .iter()
        .copied()
        .find(|kind| s.starts_with(kind.word()))
}
