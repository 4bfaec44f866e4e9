//! Fields, numbers, keywords and lines of comma-parted text.
//! `first_line` cuts off a line, `Fields` takes it apart, and `number`, `signed_word` and `keyword_of` read a field.
#![tactic(auto)]

ghost use Rattle.std.specs.Prelude.{◌≡◌, ℕ, ◌^◌, ◌<◌, ◌≤◌, List, [], ◌∷◌, ◌++◌, length, ℤ, Some, None, decimal, MatchOption, FitsSigned, ◌==◌, ◌≢◌, slice_index, Option};
ghost use Rattle.std.specs.List.{position};
ghost use Rattle.std.specs.Option.{option_map};
ghost use Rattle.std.specs.Fmt.{signed_decimal};
ghost use Rattle.std.specs.Str.{bytes_eq};
ghost use Rattle.text.specs.Reading.{cut, keyword_of, number_of, one_value, only_field, three_values, two_values, word_of};
ghost use Rattle.text.specs.Remaining.{fields_in, remaining};
ghost use Rattle.text.specs.Slots.{Lacks};
ghost use Rattle.std.specs.Int.{w32};

/// The most digits that a field is read with.
const MOST_DIGITS: usize = 10;

/// The number that digits write, where there are one to ten of them and no needless zero.
fn decimal_value(field: &[u8]) -> Option<u64>
    ensures written { MatchOption result ((n : ℕ) → n < 10 ^ 10 → decimal n ≢ field.now) (λ n. (n < 10 ^ 10) × (decimal n ≡ field.now)) }
{
    if field.is_empty() || field.len() > MOST_DIGITS {
        return None;
    }
    if field[0] == b'0' && field.len() > 1 {
        return None;
    }
    let mut value: u64 = 0;
    for digit in field {
        if !digit.is_ascii_digit() {
            return None;
        }
        value = value * 10 + u64::from(*digit - b'0');
    }
    Some(value)
}

/// The number up to a limit that a field is the decimal of.
fn decimal_up_to(field: &[u8], limit: u32) -> Option<u32>
    ensures written { MatchOption result ((n : ℕ) → n ≤ limit → decimal n ≢ field.now) (λ n. (n ≤ limit) × (decimal n ≡ field.now)) }
    ensures number_at_its_limit { limit ≡ 65535 → result ≡ number_of field.now }
{
    let value = decimal_value(field)?;
    if value <= u64::from(limit) {
        Some(value as u32)
    } else {
        None
    }
}

/// The number from 0 to 65,535 that a field is the decimal of: no plus, no needless zero.
pub fn number(field: &[u8]) -> Option<u32>
    ensures value { result ≡ number_of field.now }
    ensures written { MatchOption result ((n : ℕ) → n ≤ 65535 → decimal n ≢ field.now) (λ n. (n ≤ 65535) × (decimal n ≡ field.now)) }
{
    decimal_up_to(field, 65535)
}

/// The word that a field with no minus is the decimal of.
fn plain_word(field: &[u8]) -> Option<i32>
    requires no_minus { slice_index field.now 0 ≢ 45 }
    ensures value { result ≡ word_of field.now }
    ensures written { MatchOption result ((z : ℤ) → FitsSigned w32 z → signed_decimal z ≢ field.now) (λ z. FitsSigned w32 z × (signed_decimal z ≡ field.now)) }
{
    let value = decimal_up_to(field, 2147483647)?;
    Some(value as i32)
}

/// The word that a minus and the digits after it are the decimal of.
fn negative_word(digits: &[u8]) -> Option<i32>
    ensures value { result ≡ word_of (45 ∷ digits.now) }
    ensures written { MatchOption result ((z : ℤ) → FitsSigned w32 z → signed_decimal z ≢ 45 ∷ digits.now) (λ z. FitsSigned w32 z × (signed_decimal z ≡ 45 ∷ digits.now)) }
{
    let value = decimal_up_to(digits, 2147483648)?;
    if value > 0 {
        Some(-(value as i64) as i32)
    } else {
        None
    }
}

/// The word of 32 bits that a field is the decimal of, with a minus where it is negative: no plus, no needless zero, no minus zero.
pub fn signed_word(field: &[u8]) -> Option<i32>
    ensures value { result ≡ word_of field.now }
    ensures written { MatchOption result ((z : ℤ) → FitsSigned w32 z → signed_decimal z ≢ field.now) (λ z. FitsSigned w32 z × (signed_decimal z ≡ field.now)) }
{
    match field.split_first() {
        Some((b'-', digits)) => negative_word(digits),
        _ => plain_word(field),
    }
}

// The bytes are compared by `==`: this is its name for callers.
/// Whether a field is just the bytes of a word.
pub fn spells(word: &[u8], field: &[u8]) -> bool
    ensures same_bytes { result ≡ bytes_eq word.now field.now }
{
    word == field
}

/// A value that a field may say.
pub trait FieldValue: Copy {
    ghost said: { List ℕ → Option Self };

    /// What a field says; none where it says no such value.
    fn of_field(field: &[u8]) -> Option<Self>
        ensures value { result ≡ said field.now };
}

impl FieldValue for u32 {
    ghost said = { number_of };

    // A number up to 65,535.
    fn of_field(field: &[u8]) -> Option<u32> {
        number(field)
    }
}

impl FieldValue for i32 {
    ghost said = { word_of };

    // A word of 32 bits.
    fn of_field(field: &[u8]) -> Option<i32> {
        signed_word(field)
    }
}

/// Words of one kind, each by its spelling.
pub trait Keyword: Copy {
    ghost spelled: { Self → List ℕ };

    ghost table: { List Self };

    /// All words, in the order of the table.
    fn all<'a>() -> &'a [Self]
    where
        Self: 'a,
        ensures all_words { result.now ≡ table };

    /// The bytes that the word is spelled with.
    fn spelling(self) -> &'static [u8]
        ensures bytes_of_word { result.now ≡ spelled self };

    ghost found: { (k : Self) → keyword_of spelled table (spelled k) ≡ Some k };
}

// Apart from `keyword_of`, whose second clause is proved from the first one.
/// The first word of the table that a field spells.
fn first_spelled<K: Keyword>(field: &[u8]) -> Option<K>
    ensures value { result ≡ keyword_of K.Keyword.spelled K.Keyword.table field.now }
{
    K::all()
        .iter()
        .copied()
        .find(|word| word.spelling() == field)
}

/// The keyword that a field spells.
pub fn keyword_of<K: Keyword>(field: &[u8]) -> Option<K>
    ensures value { result ≡ keyword_of K.Keyword.spelled K.Keyword.table field.now }
    ensures spelled_so { MatchOption result ((k : K) → K.Keyword.spelled k ≢ field.now) (λ k. K.Keyword.spelled k ≡ field.now) }
{
    first_spelled(field)
}

/// The first place of a byte in a text; none where it stands nowhere.
fn first_place(text: &[u8], byte: u8) -> Option<usize>
    ensures place_of_byte { result ≡ position (λ x. x == byte) text.now }
{
    text.iter().position(|x| *x == byte)
}

/// The bytes before the first place of a byte, and those after it; none where it stands nowhere.
fn cut_at(text: &[u8], byte: u8) -> Option<(&[u8], &[u8])>
    ensures parts { MatchOption result (Lacks byte text.now) (λ p. (text.now ≡ p.0.now ++ (byte ∷ p.1.now)) × Lacks byte p.0.now) }
{
    let place = first_place(text, byte)?;
    Some((&text[0..place], &text[place + 1..]))
}

/// A text cut after its first line feed: the line without it, and what follows. None where the text has none.
pub fn first_line(text: &[u8]) -> Option<(&[u8], &[u8])>
    ensures parts { MatchOption result (Lacks 10 text.now) (λ p. (text.now ≡ p.0.now ++ (10 ∷ p.1.now)) × Lacks 10 p.0.now) }
{
    cut_at(text, b'\n')
}

/// The first field, and the bytes after its comma, or none where no comma follows.
fn first_field(bytes: &[u8]) -> (&[u8], Option<&[u8]>)
    ensures parts { cut bytes.now ≡ result.0.now ∷ fields_in result.1 }
{
    match cut_at(bytes, b',') {
        Some((field, others)) => (field, Some(others)),
        None => (bytes, None),
    }
}

// A sum: `filter` and `count` branch at each comma, and take twice as long where commas stand at random.
/// How many fields the bytes have.
fn field_count(bytes: &[u8]) -> usize
    ensures number_of_fields { result ≡ length (cut bytes.now) }
{
    bytes
        .iter()
        .map(|byte| usize::from(*byte == b','))
        .sum::<usize>()
        + 1
}

/// The fields of a line that are still to be read.
#[derive(Clone, Copy)]
pub struct Fields<'a> {
    rest: Option<&'a [u8]>,
}

// The specification sees the fields by `remaining` and not by a model, since a struct with a model and a lifetime is not
// `Copy`; and they are no iterator, since a line's fields are read twice, from one value that is copied.
impl<'a> Fields<'a> {
    /// All fields of a line, which is handed in without its line feed.
    pub fn of(line: &'a [u8]) -> Self
        ensures all_fields { remaining result ≡ cut line.now }
    {
        Fields { rest: Some(line) }
    }

    /// The next field, and the fields after it; none where no field is left.
    pub fn split(self) -> Option<(&'a [u8], Fields<'a>)>
        ensures parts { MatchOption result (remaining self.entry ≡ []) (λ p. remaining self.entry ≡ p.0.now ∷ remaining p.1) }
    {
        let (field, rest) = first_field(self.rest?);
        Some((field, Fields { rest }))
    }

    /// How many fields are left.
    pub fn count(self) -> usize
        ensures number_of_fields { result ≡ length (remaining self.entry) }
    {
        self.rest.map_or(0, field_count)
    }

    /// The one field that is left; none where there are none or several.
    pub fn only(self) -> Option<&'a [u8]>
        ensures value { option_map (λ x. x.now) result ≡ only_field (remaining self.entry) }
    {
        let (field, others) = self.split()?;
        others.split().is_none().then_some(field)
    }

    // `one`, `two` and `three` answer tuples of different types: an array would force one type on all fields of a line.
    /// What the only field left says; none where there are none or several, or where it says no such value.
    pub fn one<V: FieldValue>(self) -> Option<V>
        ensures value { result ≡ one_value V.said (remaining self.entry) }
    {
        V::of_field(self.only()?)
    }

    /// What the two fields left say; none where there are fewer or more, or where one says no such value.
    pub fn two<A: FieldValue, B: FieldValue>(self) -> Option<(A, B)>
        ensures value { result ≡ two_values A.said B.said (remaining self.entry) }
    {
        let (first, others) = self.split()?;
        Some((A::of_field(first)?, others.one()?))
    }

    /// What the three fields left say; none where there are fewer or more, or where one says no such value.
    pub fn three<A: FieldValue, B: FieldValue, C: FieldValue>(self) -> Option<(A, B, C)>
        ensures value { result ≡ three_values A.said B.said C.said (remaining self.entry) }
    {
        let (first, others) = self.split()?;
        let a = A::of_field(first)?;
        let (b, c) = others.two()?;
        Some((a, b, c))
    }
}
