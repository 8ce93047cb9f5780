// A partition's attribute word: the fields that a rule names, and what rule 12 asks of them. Rule 12's tests are joined by `|`, which runs
// both sides: with no branch, one fact is left to prove, that the answer is the definition's.
#![tactic(auto)]

ghost use Rattle.std.specs.Prelude.{[], ◌∷◌, ◌≡◌};
ghost use Rattle.pdi_spec.specs.Attributes.{checksum_type_of, cluster_of, cpu_of, dpa_of, has_load_address};
ghost use Rattle.pdi_spec.specs.Attributes.{lockstep_of, owner_of, reserved_of, tcm_flag_of, type_of};
ghost use Rattle.pdi_spec.specs.Lists.{is_in};
ghost use Rattle.pdi_spec.specs.Rules.{attribute_word_bad};

// An attribute word.
#[derive(Clone, Copy, PartialEq, Eq)]
pub struct Attributes {
    pub word: u32,
}

#[tactic(auto, unfolding(pdi_spec::specs::Lists::is_in, pdi_spec::specs::Lists::any_of))]
fn is_either(x: u32, a: u32, b: u32) -> bool
    ensures { result ≡ is_in x (a ∷ b ∷ []) }
{
    x == a || x == b
}

#[tactic(auto, unfolding(pdi_spec::specs::Lists::is_in, pdi_spec::specs::Lists::any_of))]
fn known_cpu(x: u32) -> bool
    ensures { result ≡ is_in x (0 ∷ 1 ∷ 2 ∷ 3 ∷ 4 ∷ 5 ∷ 6 ∷ 8 ∷ 9 ∷ []) }
{
    matches!(x, 0..=6 | 8 | 9)
}

// The fields, and what they say.
impl Attributes {
    // Bits 31:29.
    pub fn cluster(self) -> u32
        ensures { result ≡ cluster_of self.word }
    {
        words::bits::<29, 3>(self.word)
    }

    // Bits 28:27.
    pub fn dpa(self) -> u32
        ensures { result ≡ dpa_of self.word }
    {
        words::bits::<27, 2>(self.word)
    }

    // Bits 26:24.
    pub fn partition_type(self) -> u32
        ensures { result ≡ type_of self.word }
    {
        words::bits::<24, 3>(self.word)
    }

    // Bits 22:21.
    pub fn reserved(self) -> u32
        ensures { result ≡ reserved_of self.word }
    {
        words::bits::<21, 2>(self.word)
    }

    // Bits 20:19.
    pub fn tcm_flag(self) -> u32
        ensures { result ≡ tcm_flag_of self.word }
    {
        words::bits::<19, 2>(self.word)
    }

    // Bits 17:16.
    pub fn owner(self) -> u32
        ensures { result ≡ owner_of self.word }
    {
        words::bits::<16, 2>(self.word)
    }

    // Bits 13:12.
    pub fn checksum_type(self) -> u32
        ensures { result ≡ checksum_type_of self.word }
    {
        words::bits::<12, 2>(self.word)
    }

    // Bits 11:8.
    pub fn cpu(self) -> u32
        ensures { result ≡ cpu_of self.word }
    {
        words::bits::<8, 4>(self.word)
    }

    // Bits 5:4.
    pub fn lockstep(self) -> u32
        ensures { result ≡ lockstep_of self.word }
    {
        words::bits::<4, 2>(self.word)
    }

    // The partition has a load address: its type is 1, 4 or 5.
    #[tactic(auto, unfolding(pdi_spec::specs::Attributes::has_load_address, pdi_spec::specs::Lists::is_in, pdi_spec::specs::Lists::any_of))]
    pub fn has_load_address(self) -> bool
        ensures { result ≡ has_load_address self.word }
    {
        matches!(self.partition_type(), 1 | 4 | 5)
    }

    // Rule 12, of the word alone.
    #[tactic(auto, unfolding(pdi_spec::specs::Rules::attribute_word_bad, pdi_spec::specs::Lists::any_true))]
    pub fn is_bad(self) -> bool
        ensures { result ≡ attribute_word_bad self.word }
    {
        (4 < self.cluster())
            | !is_either(self.dpa(), 0, 3)
            | (self.partition_type() == 0)
            | (self.reserved() != 0)
            | !is_either(self.tcm_flag(), 0, 3)
            | !is_either(self.owner(), 0, 1)
            | !is_either(self.checksum_type(), 0, 3)
            | !known_cpu(self.cpu())
            | !is_either(self.lockstep(), 0, 3)
    }
}
