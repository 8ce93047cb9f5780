// A refusal: the rule that is broken, by its name and document 01's number, and the smallest p that breaks it.
#![tactic(auto)]

ghost use Rattle.std.specs.Prelude.{◌≡◌};
ghost use Rattle.pdi_spec.specs.Answers.{answer};
ghost use Rattle.refusals.specs.Refusals.{number_of, of_image, outcome_of_refusal};

// The rules, each with its number and the name of its definition.
#[derive(Clone, Copy, Debug, PartialEq, Eq)]
pub enum Rule {
    ImageTooLong = 1,
    BufferTooShort = 2,
    TableOutside = 3,
    TableChecksumWrong = 4,
    KindUnknown = 5,
    TableFieldsBad = 6,
    TableKeyUnknown = 7,
    BootHeaderWrong = 8,
    ImageHeadersOutside = 9,
    ChainBroken = 10,
    HeaderChecksumBad = 11,
    AttributesBad = 12,
    KeyUnknown = 13,
    LengthsBad = 14,
    SpanOutside = 15,
    LoadAddressBad = 16,
    HashBlockWrong = 17,
    StoredRangesClash = 18,
    LoadRangesClash = 19,
    ImageHeadersBad = 20,
}

impl Rule {
    // Document 01's number.
    pub fn number(self) -> u64
        ensures { result ≡ number_of self }
    {
        self as u64
    }
}

// The lowest rule that is broken, and the smallest p that breaks it.
#[derive(Clone, Copy, Debug, PartialEq, Eq)]
pub struct Refusal {
    pub rule: Rule,
    pub partition: u32,
}

// A rule of the whole image, whose p is 0.
impl From<Rule> for Refusal {
    ghost from_gives = { λ rule r. r ≡ of_image rule };

    fn from(rule: Rule) -> Refusal {
        Refusal { rule, partition: 0 }
    }
}

// 64 × number + p.
impl From<Refusal> for u64 {
    ghost from_gives = { λ r n. n ≡ answer (outcome_of_refusal r) };

    #[tactic(auto, unfolding(pdi_spec::specs::Answers::answer))]
    fn from(refusal: Refusal) -> u64 {
        64 * refusal.rule.number() + u64::from(refusal.partition)
    }
}
