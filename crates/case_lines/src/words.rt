// The words of a line: what stands between its spaces. Behind the first, which says what the line is, N*W is N times W, and numbers are hexadecimal.

ghost use Rattle.std.specs.Prelude.{◌≡◌, ◌*◌, ◌%◌, ◌^◌, ◌<◌, ◌==◌, MatchOption, length, min, not, bit_or};
ghost use Rattle.std.specs.List.{before_first, after_first, position_or_len, before_last, after_last, suffix_len};
ghost use Rattle.case_lines.specs.Words.{is_space, digit, number_of, word_of, words_of, numbers_in, laid};

// What stands before the first such byte, and what stands behind it.
fn split_once(text: &[u8], at: u8) -> Option<(&[u8], &[u8])>
    ensures { let p = position_or_len (λ b. b == at) text.now in MatchOption result (p ≡ length text.now)
        (λ r. (p < length text.now) × (r.0.now ≡ before_first (λ b. b == at) text.now) × (r.1.now ≡ after_first (λ b. b == at) text.now)) }
{
    let k = text.iter().position(|b| *b == at)?;
    Some((&text[..k], &text[k + 1..]))
}

// What stands before the last such byte, and what stands behind it.
fn rsplit_once(text: &[u8], at: u8) -> Option<(&[u8], &[u8])>
    ensures { let n = suffix_len (λ b. not (b == at)) text.now in MatchOption result (n ≡ length text.now)
        (λ r. (n < length text.now) × (r.0.now ≡ before_last (λ b. b == at) text.now) × (r.1.now ≡ after_last (λ b. b == at) text.now)) }
{
    let k = text.iter().rposition(|b| *b == at)?;
    Some((&text[..k], &text[k + 1..]))
}

// The first word of a line, which says what the line is.
pub fn first(line: &[u8]) -> &[u8]
    ensures { result.now ≡ before_first is_space line.now }
{
    split_once(line, b' ').map_or(line, |p| p.0)
}

// ---- numbers

// What a hexadecimal digit stands for. Any other byte stands for eight bits too.
fn digit(b: u8) -> u64
    ensures { result ≡ digit b }
{
    if b <= b'9' {
        u64::from(b.wrapping_sub(b'0'))
    } else {
        u64::from(b.wrapping_sub(b'a' - 10))
    }
}

// A number with one more digit, in 64 bits.
fn with_digit(v: u64, b: u8) -> u64
    ensures { result ≡ bit_or ((v * 16) % 2 ^ 64) (digit b) }
{
    (v << 4) | digit(b)
}

// What hexadecimal digits say.
pub fn number(digits: &[u8]) -> u64
    ensures { result ≡ number_of digits.now }
{
    digits.iter().fold(0, |v, b| with_digit(v, *b))
}

// ---- words

// How many times a word stands there, once at least, and its text.
#[derive(Clone, Copy)]
pub struct Word<'a> {
    pub times: u64,
    pub text: &'a [u8],
    pub ghost some: { 0 < times },
}

impl<'a> Word<'a> {
    ghost use Rattle.case_lines.specs.Left.{word_seen};

    fn new(text: &'a [u8]) -> Word<'a>
        ensures { word_seen result ≡ word_of text.now }
    {
        match rsplit_once(text, b'*') {
            Some((before, text)) => {
                let times = rsplit_once(before, b'*').map_or(before, |p| p.1);
                Word {
                    times: number(times).max(1),
                    text,
                }
            }
            None => Word { times: 1, text },
        }
    }
}

// The words of a line behind its first, each once. `rest`: what stands behind the space, or nothing at the line's end.
#[derive(Clone, Copy)]
pub struct Words<'a> {
    rest: Option<&'a [u8]>,
}

impl<'a> Words<'a> {
    ghost use Rattle.case_lines.specs.Left.{words_left};

    pub fn new(line: &'a [u8]) -> Words<'a>
        ensures { words_left result ≡ words_of line.now }
    {
        Words {
            rest: split_once(line, b' ').map(|p| p.1),
        }
    }
}

impl<'a> Iterator for Words<'a> {
    ghost use Rattle.std.specs.Iterator.{YieldsFirstBy, item_count};
    ghost use Rattle.case_lines.specs.Left.{word_seen, words_left};

    type Item = Word<'a>;

    ghost next_gives = { YieldsFirstBy word_seen words_left };

    ghost remaining = { item_count words_left };

    fn next(&mut self) -> Option<Word<'a>> {
        let line = self.rest?;
        let (word, rest) = match split_once(line, b' ') {
            Some((word, rest)) => (word, Some(rest)),
            None => (line, None),
        };
        self.rest = rest;
        Some(Word::new(word))
    }
}

// The numbers of a line behind its first word, each as often as it stands there. `left`: how often `value` still comes.
#[derive(Clone, Copy)]
pub struct Numbers<'a> {
    left: u64,
    value: u64,
    words: Words<'a>,
}

impl<'a> Numbers<'a> {
    ghost use Rattle.case_lines.specs.Left.{numbers_left};

    pub fn new(line: &'a [u8]) -> Numbers<'a>
        ensures { numbers_left result ≡ numbers_in (words_of line.now) }
    {
        Numbers {
            left: 0,
            value: 0,
            words: Words::new(line),
        }
    }

    // Laid into the list from its beginning on, as far as both go. How many.
    pub fn lay(mut self, list: &mut [usize]) -> usize
        ensures count { result ≡ min (length (numbers_left self.entry)) (length list.old) }
        ensures list { list.new ≡ laid (numbers_left self.entry) list.old }
    {
        for (k, place) in list.iter_mut().enumerate() {
            let Some(number) = self.next() else {
                return k;
            };
            *place = number as usize;
        }
        list.len()
    }
}

impl<'a> Iterator for Numbers<'a> {
    ghost use Rattle.std.specs.Iterator.{YieldsFirst, item_count};
    ghost use Rattle.case_lines.specs.Left.{numbers_left};

    type Item = u64;

    ghost next_gives = { YieldsFirst numbers_left };

    ghost remaining = { item_count numbers_left };

    fn next(&mut self) -> Option<u64> {
        if self.left == 0 {
            let word = self.words.next()?;
            self.left = word.times;
            self.value = number(word.text);
        }
        self.left -= 1;
        Some(self.value)
    }
}
