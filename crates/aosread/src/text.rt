// Text that is put together in a buffer of N octets.
ghost use Rattle.std.specs.Prelude.{◌≡◌, ◌+◌, ◌≤◌, [], ◌++◌, length};
ghost use Rattle.aosread.specs.Lines.{decimal as digits_of, named as named_text, last as last_text, two as two_text};

use std::marker::Model;

// A clause sees the octets that are put together so far, and no others. (There is no heap: they stand in an array, with their number.)
#[derive(Drop)]
pub(crate) struct Text<const N: usize> {
    octets: [u8; N],
    length: usize,
}

impl<const N: usize> Model for Text<N> {
    ghost use Rattle.std.specs.Prelude.{ℕ, List, ◌≤◌, take};

    ghost Value = { List ℕ };

    ghost view = { λ t. take t.length t.octets };

    ghost invariant = { λ t. t.length ≤ N };
}

impl<const N: usize> Text<N> {
    // No text.
    pub(crate) fn new() -> Self
        ensures { result ≡ [] }
    {
        Text {
            octets: [0; N],
            length: 0,
        }
    }

    // How many octets the text has.
    pub(crate) fn len(&self) -> usize
        ensures value { result ≡ length self.now }
        ensures most { result ≤ N }
    {
        self.length
    }

    // The text.
    pub(crate) fn octets(&self) -> &[u8]
        ensures value { result.now ≡ self.now }
        ensures most { length result.now ≤ N }
    {
        &self.octets[..self.length]
    }

    // Puts more behind it.
    pub(crate) fn put(&mut self, more: &[u8])
        requires { length self.old + length more.now ≤ N }
        ensures { self.new ≡ self.old ++ more.now }
    {
        let end = self.length + more.len();
        let octets = &mut self.octets[..];
        octets[self.length..end].copy_from_slice(more);
        self.length = end;
    }

    // Puts another text behind it, all of whose buffer has room there: a copy of a fixed size takes fewer instructions.
    pub(crate) fn append<const M: usize>(&mut self, more: &Text<M>)
        requires { length self.old + M ≤ N }
        ensures { self.new ≡ self.old ++ more.now }
    {
        let at = self.length;
        let octets = &mut self.octets[..];
        octets[at..at + M].copy_from_slice(&more.octets[..]);
        self.length = at + more.length;
    }

    // Puts a number's decimal digits behind it, the last of them first.
    // By hand: std writes them through a writer that may fail, and with itoa a frame takes 7 % more instructions.
    fn decimal(&mut self, n: u64)
        requires { length self.old + 20 ≤ N }
        ensures { self.new ≡ self.old ++ digits_of n }
    {
        let from = self.length;
        let end = from + n.max(1).ilog10() as usize + 1;
        let mut rest = n;
        for at in (from..end).rev() {
            self.octets[at] = b'0' + (rest % 10) as u8;
            rest /= 10;
        }
        self.length = end;
    }

    // Puts a number's decimal digits behind it, behind the number's name.
    pub(crate) fn named(&mut self, name: &[u8], n: u64)
        requires { length self.old + (length name.now + 20) ≤ N }
        ensures puts { self.new ≡ self.old ++ named_text name.now n }
        ensures upper_bound { length self.new ≤ length self.old + (length name.now + 20) }
    {
        self.put(name);
        self.decimal(n);
    }

    // The same at the end of a line.
    pub(crate) fn last(&mut self, name: &[u8], n: u64)
        requires { length self.old + (length name.now + 21) ≤ N }
        ensures { self.new ≡ self.old ++ last_text name.now n }
    {
        self.named(name, n);
        self.put(b"\n");
    }

    // Two numbers, the second at the end of a line.
    #[inline]
    pub(crate) fn two(&mut self, first: &[u8], a: u64, second: &[u8], b: u64)
        requires { length self.old + (length first.now + (length second.now + 41)) ≤ N }
        ensures { self.new ≡ self.old ++ two_text first.now a second.now b }
    {
        self.named(first, a);
        self.last(second, b);
    }

    // Drops the text.
    pub(crate) fn clear(&mut self)
        ensures { self.new ≡ [] }
    {
        self.length = 0;
    }
}
