// Spelling into a lent slice: fixed byte strings, variables, constants and equations, one after the other. A writer holds the slice and
// the place where the next bytes go. It writes nothing where the bytes do not fit, and the places go on all the same, so that one writer
// serves twice: into no bytes at all, which measures the text, and then into the slice.
#![tactic(auto)]

ghost use Rattle.std.specs.Prelude.{◌≡◌, ◌+◌, ◌<◌, ◌≤◌};
ghost use Rattle.smt.specs.Term.{variable, constant};
ghost use Rattle.smt.specs.Spelling.{hex_digit, term_text, formula_text};
ghost use Rattle.script.specs.Assertions.{equal};
ghost use Rattle.spell.specs.Atoms.{atom_term, two_atoms, closing, long_variable};

// A variable by its number, or a constant.
#[derive(Clone, Copy)]
pub enum Atom {
    Variable(u32),
    Constant(u16),
}

// The code of a digit in base sixteen, and so of one in base ten.
fn digit_of(x: u32) -> u8
    requires { x < 16 }
    ensures { result ≡ hex_digit x }
{
    if x < 10 {
        return 48 + x as u8;
    }
    87 + x as u8
}

// A text that is being written: the lent slice, and the place where the next bytes go. That the place is a number of 64 bits is known of
// every writer, also where nothing is written.
#[derive(Drop)]
pub struct Writer<'a> {
    pub text: &'a mut [u8],
    pub at: usize,
    pub ghost near: { at ≤ 18446744073709551615 },
}

impl<'a> Writer<'a> {
    ghost use Rattle.spell.specs.Spelt.{Puts};

    // A byte string.
    pub fn put(&mut self, bytes: &[u8])
        ensures { Puts bytes.now self.old self.new }
    {
        let end = self.at.saturating_add(bytes.len());
        if end <= self.text.len() {
            self.text[self.at..end].copy_from_slice(bytes);
        }
        self.at = end;
    }

    // A variable of one, two or three digits; more than the largest case has are longer.
    #[tactic(auto, unfolding(smt::specs::Spelling::term_text, model::specs::Listing::decimal, model::specs::Listing::digits_of, crate::specs::Atoms::long_variable))]
    pub fn put_variable(&mut self, k: u32)
        ensures { Puts (term_text (variable k)) self.old self.new }
    {
        if k < 10 {
            self.put(&[b'v', digit_of(k)]);
            return;
        }
        let tens = k / 10;
        let last = digit_of(k % 10);
        if tens < 10 {
            self.put(&[b'v', digit_of(tens), last]);
            return;
        }
        let hundreds = tens / 10;
        let third = digit_of(tens % 10);
        if hundreds < 10 {
            self.put(&[b'v', digit_of(hundreds), third, last]);
            return;
        }
        self.put_long(hundreds, third, last);
    }

    // A variable of four or five digits, of which the last two are given.
    #[tactic(auto, unfolding(crate::specs::Atoms::long_variable))]
    fn put_long(&mut self, hundreds: u32, third: u8, last: u8)
        requires { 10 ≤ hundreds }
        ensures { Puts (long_variable hundreds third last) self.old self.new }
    {
        let thousands = hundreds / 10;
        let second = digit_of(hundreds % 10);
        if thousands < 10 {
            self.put(&[b'v', digit_of(thousands), second, third, last]);
            return;
        }
        let first = digit_of(thousands / 10 % 10);
        self.put(&[b'v', first, digit_of(thousands % 10), second, third, last]);
    }

    #[tactic(auto, unfolding(smt::specs::Spelling::term_text, smt::specs::Spelling::four_hex))]
    pub fn put_constant(&mut self, n: u16)
        ensures { Puts (term_text (constant n)) self.old self.new }
    {
        let n = u32::from(n);
        self.put(&[
            b'#',
            b'x',
            digit_of(n / 4096 % 16),
            digit_of(n / 256 % 16),
            digit_of(n / 16 % 16),
            digit_of(n % 16),
        ]);
    }

    pub fn put_atom(&mut self, x: Atom)
        ensures { Puts (term_text (atom_term x)) self.old self.new }
    {
        match x {
            Atom::Variable(k) => self.put_variable(k),
            Atom::Constant(n) => self.put_constant(n),
        }
    }

    // Two atoms with a blank between them and a closing parenthesis behind: what follows the word of a test or an operation.
    pub fn put_two(&mut self, x: Atom, y: Atom)
        ensures { Puts (two_atoms x y) self.old self.new }
    {
        self.put_atom(x);
        self.put(b" ");
        self.put_atom(y);
        self.put(b")");
    }

    // Two atoms are equal.
    pub fn put_equal(&mut self, x: Atom, y: Atom)
        ensures { Puts (formula_text (equal (atom_term x) (atom_term y))) self.old self.new }
    {
        self.put(b"(= ");
        self.put_two(x, y);
    }

    // So many closing parentheses.
    pub fn put_closing(&mut self, many: usize)
        ensures { Puts (closing many) self.old self.new }
    {
        for _ in 0..many {
            self.put(b")");
        }
    }
}
