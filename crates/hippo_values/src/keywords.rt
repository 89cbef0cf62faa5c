//! The reserved words: the keywords of the grammar, and the words of SQL that hippo refuses.

ghost use Rattle.std.specs.Prelude.{◌≡◌, true, ◌==◌, bit_or, ◌-◌, ◌<◌, ◌≤◌, length, map, take, drop, IfSome, bytes_eq};
ghost use Rattle.std.specs.Map.{lookup};
ghost use Rattle.std.specs.Char.{is_ascii_alphabetic, is_ascii_lowercase, to_ascii_lowercase};
ghost use Rattle.std.specs.List.{list_all, zip};
ghost use Rattle.hippo_values.specs.Names.{lower_case, letter_of, reserved_of};

/// A keyword of the grammar; case does not matter.
#[derive(Clone, Copy, Debug, PartialEq, Eq)]
pub enum Keyword {
    KAnd,
    KAllow,
    KAudit,
    KAuthorize,
    KBegin,
    KBetween,
    KChoice,
    KCreate,
    KDate,
    KDeauthorize,
    KDelete,
    KDistinct,
    KDuring,
    KExplain,
    KFor,
    KFrom,
    KGroup,
    KIn,
    KInner,
    KInsert,
    KInteger,
    KInto,
    KIs,
    KItem,
    KJoin,
    KKey,
    KMax,
    KMin,
    KNo,
    KNot,
    KNull,
    KOn,
    KOpen,
    KOpt,
    KOtherthan,
    KOut,
    KPrimary,
    KPurpose,
    KRecipient,
    KRevoke,
    KSelect,
    KSet,
    KShown,
    KSubject,
    KTable,
    KText,
    KTo,
    KUpdate,
    KValues,
    KWhere,
    KWith,
    KYes,
    KOr,
}

/// Why a word cannot be a name: it is a keyword of the grammar, or a word of SQL that hippo refuses
/// everywhere.
#[derive(Clone, Copy, Debug, PartialEq, Eq)]
pub enum Reserved {
    Keyword(Keyword),
    Unsupported,
}

// The reserved words, sorted by first letter.
const WORDS: [(&str, Reserved); 80] = [
    ("and", Reserved::Keyword(Keyword::KAnd)),
    ("allow", Reserved::Keyword(Keyword::KAllow)),
    ("audit", Reserved::Keyword(Keyword::KAudit)),
    ("authorize", Reserved::Keyword(Keyword::KAuthorize)),
    ("all", Reserved::Unsupported),
    ("alter", Reserved::Unsupported),
    ("any", Reserved::Unsupported),
    ("as", Reserved::Unsupported),
    ("avg", Reserved::Unsupported),
    ("begin", Reserved::Keyword(Keyword::KBegin)),
    ("between", Reserved::Keyword(Keyword::KBetween)),
    ("choice", Reserved::Keyword(Keyword::KChoice)),
    ("create", Reserved::Keyword(Keyword::KCreate)),
    ("case", Reserved::Unsupported),
    ("cast", Reserved::Unsupported),
    ("count", Reserved::Unsupported),
    ("cross", Reserved::Unsupported),
    ("date", Reserved::Keyword(Keyword::KDate)),
    ("deauthorize", Reserved::Keyword(Keyword::KDeauthorize)),
    ("delete", Reserved::Keyword(Keyword::KDelete)),
    ("distinct", Reserved::Keyword(Keyword::KDistinct)),
    ("during", Reserved::Keyword(Keyword::KDuring)),
    ("drop", Reserved::Unsupported),
    ("explain", Reserved::Keyword(Keyword::KExplain)),
    ("except", Reserved::Unsupported),
    ("exists", Reserved::Unsupported),
    ("for", Reserved::Keyword(Keyword::KFor)),
    ("from", Reserved::Keyword(Keyword::KFrom)),
    ("full", Reserved::Unsupported),
    ("group", Reserved::Keyword(Keyword::KGroup)),
    ("having", Reserved::Unsupported),
    ("in", Reserved::Keyword(Keyword::KIn)),
    ("inner", Reserved::Keyword(Keyword::KInner)),
    ("insert", Reserved::Keyword(Keyword::KInsert)),
    ("integer", Reserved::Keyword(Keyword::KInteger)),
    ("into", Reserved::Keyword(Keyword::KInto)),
    ("is", Reserved::Keyword(Keyword::KIs)),
    ("item", Reserved::Keyword(Keyword::KItem)),
    ("intersect", Reserved::Unsupported),
    ("join", Reserved::Keyword(Keyword::KJoin)),
    ("key", Reserved::Keyword(Keyword::KKey)),
    ("left", Reserved::Unsupported),
    ("like", Reserved::Unsupported),
    ("limit", Reserved::Unsupported),
    ("max", Reserved::Keyword(Keyword::KMax)),
    ("min", Reserved::Keyword(Keyword::KMin)),
    ("no", Reserved::Keyword(Keyword::KNo)),
    ("not", Reserved::Keyword(Keyword::KNot)),
    ("null", Reserved::Keyword(Keyword::KNull)),
    ("natural", Reserved::Unsupported),
    ("on", Reserved::Keyword(Keyword::KOn)),
    ("open", Reserved::Keyword(Keyword::KOpen)),
    ("opt", Reserved::Keyword(Keyword::KOpt)),
    ("otherthan", Reserved::Keyword(Keyword::KOtherthan)),
    ("out", Reserved::Keyword(Keyword::KOut)),
    ("or", Reserved::Keyword(Keyword::KOr)),
    ("offset", Reserved::Unsupported),
    ("order", Reserved::Unsupported),
    ("outer", Reserved::Unsupported),
    ("primary", Reserved::Keyword(Keyword::KPrimary)),
    ("purpose", Reserved::Keyword(Keyword::KPurpose)),
    ("recipient", Reserved::Keyword(Keyword::KRecipient)),
    ("revoke", Reserved::Keyword(Keyword::KRevoke)),
    ("right", Reserved::Unsupported),
    ("select", Reserved::Keyword(Keyword::KSelect)),
    ("set", Reserved::Keyword(Keyword::KSet)),
    ("shown", Reserved::Keyword(Keyword::KShown)),
    ("subject", Reserved::Keyword(Keyword::KSubject)),
    ("sum", Reserved::Unsupported),
    ("table", Reserved::Keyword(Keyword::KTable)),
    ("text", Reserved::Keyword(Keyword::KText)),
    ("to", Reserved::Keyword(Keyword::KTo)),
    ("update", Reserved::Keyword(Keyword::KUpdate)),
    ("union", Reserved::Unsupported),
    ("using", Reserved::Unsupported),
    ("values", Reserved::Keyword(Keyword::KValues)),
    ("where", Reserved::Keyword(Keyword::KWhere)),
    ("with", Reserved::Keyword(Keyword::KWith)),
    ("window", Reserved::Unsupported),
    ("yes", Reserved::Keyword(Keyword::KYes)),
];

// For each letter, the index in `WORDS` of its first word; the last number is the end of the last
// letter's words.
const STARTS: [usize; 27] = [
    0, 9, 11, 17, 23, 26, 29, 30, 31, 39, 40, 41, 44, 46, 50, 59, 61, 61, 64, 69, 72, 75, 76, 79,
    79, 80, 80,
];

// The bit that is set in a lower-case letter and clear in the upper-case one.
const LOWER_CASE: u8 = 32;

// Whether each letter equals the byte of the word at the same place with the lower-case bit set.
fn all_written(letters: &[u8], word: &[u8]) -> bool
    ensures { result ≡ list_all (λ p. p.0 == bit_or p.1 32) (zip letters.now word.now) }
{
    letters
        .iter()
        .zip(word)
        .all(|(letter, byte)| *letter == (*byte | LOWER_CASE))
}

// Whether a word equals the known one, ignoring case. The known word is all lower-case letters.
fn is_written_by(known: &[u8], word: &[u8]) -> bool
    requires { list_all is_ascii_lowercase known.now ≡ true }
    ensures { result ≡ bytes_eq (lower_case known.now) (lower_case word.now) }
{
    known.len() == word.len() && all_written(known, word)
}

// Looks a word up in the table, ignoring case. The table's words are all lower-case letters, so
// only the given word is folded.
fn find_written(table: &[(&str, Reserved)], word: &str) -> Option<Reserved>
    requires { list_all (λ e. list_all is_ascii_lowercase e.0.now) table.now ≡ true }
    ensures { result ≡ lookup (λ known. bytes_eq (lower_case known.now) (lower_case word.now))
        table.now }
{
    for (known, meaning) in table {
        if is_written_by(known.as_bytes(), word.as_bytes()) {
            return Some(*meaning);
        }
    }
    None
}

fn find_between(
    table: &[(&str, Reserved)],
    start: usize,
    end: usize,
    word: &str,
) -> Option<Reserved>
    requires order { start ≤ end }
    requires within { end ≤ length table.now }
    requires letters { list_all (λ e. list_all is_ascii_lowercase e.0.now) table.now ≡ true }
    ensures { result ≡ lookup (λ known. bytes_eq known (lower_case word.now))
        (take (end - start) (drop start (map (λ e. (lower_case e.0.now, e.1)) table.now))) }
{
    find_written(&table[start..end], word)
}

// The index of a word's first letter in the alphabet, from 0.
fn letter_of(word: &str) -> Option<usize>
    ensures letter { result ≡ letter_of word.now }
    ensures within { IfSome result (λ place. place < 26) }
{
    match word.as_bytes() {
        [first, ..] if first.is_ascii_alphabetic() => {
            Some(usize::from(first.to_ascii_lowercase() - b'a'))
        }
        _ => None,
    }
}

/// Why a word, in any case, cannot be a name; none if it is not reserved.
pub fn reserved_of(word: &str) -> Option<Reserved>
    ensures { result ≡ reserved_of word.now }
{
    let letter = letter_of(word)?;
    find_between(&WORDS, STARTS[letter], STARTS[letter + 1], word)
}
