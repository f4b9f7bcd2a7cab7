//! The rules of the VTOC check.

ghost use Rattle.std.specs.Prelude.{◌≡◌};
ghost use Rattle.volume_model.specs.Rules.{number_of, rule_of, words_of};

/// The rules of a VTOC, in their order.
#[derive(Clone, Copy, Debug, PartialEq, Eq)]
pub enum VtocRule {
    NoFormat4,
    Geometry,
    VtocExtent,
    Track,
    Dscb,
    Name,
    Pointer,
    Range,
    Overlap,
    Free,
}

/// All of them in their order.
const RULES: [VtocRule; 10] = [
    VtocRule::NoFormat4,
    VtocRule::Geometry,
    VtocRule::VtocExtent,
    VtocRule::Track,
    VtocRule::Dscb,
    VtocRule::Name,
    VtocRule::Pointer,
    VtocRule::Range,
    VtocRule::Overlap,
    VtocRule::Free,
];

impl VtocRule {
    /// The rule with a number in a refusal, where there is one.
    pub fn of_number(number: u8) -> Option<VtocRule>
        ensures { result ≡ rule_of number }
    {
        RULES.iter().copied().find(|rule| rule.number() == number)
    }

    /// The number of the rule in a refusal.
    pub fn number(self) -> u8
        ensures { result ≡ number_of self }
    {
        match self {
            VtocRule::NoFormat4 => 1,
            VtocRule::Geometry => 2,
            VtocRule::VtocExtent => 3,
            VtocRule::Track => 4,
            VtocRule::Dscb => 5,
            VtocRule::Name => 6,
            VtocRule::Pointer => 7,
            VtocRule::Range => 8,
            VtocRule::Overlap => 9,
            VtocRule::Free => 10,
        }
    }

    /// The words for the rule in a message.
    pub fn words(self) -> &'static str
        ensures { result.now ≡ words_of self }
    {
        match self {
            VtocRule::NoFormat4 => "NO FORMAT 4",
            VtocRule::Geometry => "GEOMETRY",
            VtocRule::VtocExtent => "VTOC EXTENT",
            VtocRule::Track => "TRACK",
            VtocRule::Dscb => "DSCB",
            VtocRule::Name => "NAME",
            VtocRule::Pointer => "POINTER",
            VtocRule::Range => "RANGE",
            VtocRule::Overlap => "OVERLAP",
            VtocRule::Free => "FREE",
        }
    }
}
