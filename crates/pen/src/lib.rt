// Bytes, words and numbers, one after another, into a lent buffer. The pen writes from a place on as far as there is room, and its place moves
// on to the end of what it wrote: so no method asks anything of its caller, and whoever lends enough gets all of it.
#![tactic(auto)]

ghost use Rattle.std.specs.Prelude.{[], ◌∷◌, ◌++◌};
ghost use Rattle.pen.specs.Written.{Writes};
ghost use Rattle.pen.specs.Decimal.{decimal};
ghost use Rattle.pen.specs.Words.{things};

// A lent buffer, and the place in it that is written next.
#[derive(Drop)]
pub struct Pen<'a> {
    pub out: &'a mut [u8],
    pub at: usize,
}

impl<'a> Pen<'a> {
    pub fn byte(&mut self, byte: u8)
        ensures { Writes self.old (byte ∷ []) self.new }
    {
        if self.at < self.out.len() {
            self.out[self.at] = byte;
            self.at += 1;
        }
    }

    #[tactic(auto, using(crate::proofs::Putting::pens, std::proofs::lemmas::Grind::common_steps))]
    pub fn words(&mut self, said: &[u8])
        ensures { Writes self.old said.now self.new }
    {
        for &byte in said {
            self.byte(byte);
        }
    }

    // §9.4: a number in decimal.
    #[tactic(auto, using(crate::proofs::Putting::pens, crate::proofs::Decimal::decimal_one, crate::proofs::Decimal::decimal_more))]
    pub fn number(&mut self, n: u64)
        ensures { Writes self.old (decimal n) self.new }
    {
        if n >= 10 {
            self.number(n / 10);
        }
        self.byte(b'0' + (n % 10) as u8);
    }

    // Words, and then a number.
    #[tactic(auto, using(crate::proofs::Putting::pens))]
    pub fn told(&mut self, said: &[u8], n: u64)
        ensures { Writes self.old (said.now ++ decimal n) self.new }
    {
        self.words(said);
        self.number(n);
    }

    // A number of things, by their name without the s.
    #[tactic(auto, using(crate::proofs::Putting::pens), unfolding(crate::specs::Words::bytes, crate::specs::Words::things))]
    pub fn things(&mut self, count: u64, name: &[u8])
        ensures { Writes self.old (things count name.now) self.new }
    {
        self.number(count);
        self.words(name);
        if count != 1 {
            self.words(b"s");
        }
    }
}
