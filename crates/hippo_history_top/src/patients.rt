//! The number of a patient, as a word writes it.
ghost use Rattle.std.specs.Prelude.{◌≡◌};
ghost use Rattle.hippo_history_top.specs.CommandLine.{patient_number};

/// The number of a patient that a word writes; `None` if the word is no number of 64 bits.
pub(crate) fn patient_number(word: &str) -> Option<i64>
    ensures { result ≡ patient_number word.now }
{
    i64::from_str_radix(word, 10).ok()
}
