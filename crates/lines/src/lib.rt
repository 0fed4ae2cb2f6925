// The lines that are written, into a lent output.
#![tactic(auto)]

ghost use Rattle.std.specs.Prelude.{◌≡◌, ◌∷◌, ◌++◌, [], length};
ghost use Rattle.paper_sheets.specs.Sheet.{number, more, decimal, fields_text, line_text};
ghost use Rattle.paper_sheets.specs.Written.{written};
ghost use Rattle.lines.specs.Puts.{HoldsMore, Puts};
ghost use Rattle.lines.specs.Writes.{spaced};

// A text in a lent output: it ends at `at`, and goes on there.
#[derive(Drop)]
pub struct Text<'a> {
    pub out: &'a mut [u8],
    pub at: usize,
}

impl Text<'_> {
    // Writes a byte.
    fn put_byte(&mut self, byte: u8)
        requires { HoldsMore self.old (byte ∷ []) }
        ensures { Puts self.old self.new (byte ∷ []) }
    {
        self.out[self.at] = byte;
        self.at += 1;
    }

    // Writes a number's digits, of which a word has at most 20.
    fn put_number(&mut self, n: u64)
        requires { HoldsMore self.old (decimal n) }
        ensures { Puts self.old self.new (decimal n) }
    {
        let mut digits = [0u8; 20];
        let count = io::decimal(n, &mut digits);
        let end = self.at + count;
        self.out[self.at..end].copy_from_slice(&digits[..count]);
        self.at = end;
    }

    // Writes numbers, with a space before each.
    fn put_fields(&mut self, fields: &[u64])
        requires { HoldsMore self.old (spaced fields.now) }
        ensures { Puts self.old self.new (spaced fields.now) }
    {
        for field in fields {
            self.put_byte(b' ');
            self.put_number(*field);
        }
    }

    // Writes what ends a line: numbers, with a space before each, and LF.
    fn put_rest(&mut self, fields: &[u64])
        requires { HoldsMore self.old (fields_text fields.now) }
        ensures { Puts self.old self.new (fields_text fields.now) }
    {
        self.put_fields(fields);
        self.put_byte(b'\n');
    }

    // Writes a line of a text: a letter, what it names, its other fields, each with a space before it, and LF.
    pub fn put_line(&mut self, letter: u8, names: &[u64], fields: &[u64])
        requires { HoldsMore self.old (line_text letter (names.now ++ fields.now)) }
        ensures { Puts self.old self.new (line_text letter (names.now ++ fields.now)) }
    {
        self.put_byte(letter);
        self.put_fields(names);
        self.put_rest(fields);
    }

    // Writes a line of a sheet: numbers, with a space between two, and LF.
    pub fn put_row(&mut self, first: u64, others: &[u64])
        requires { HoldsMore self.old (written (number ∷ more (length others.now)) (first ∷ others.now)) }
        ensures { Puts self.old self.new (written (number ∷ more (length others.now)) (first ∷ others.now)) }
    {
        self.put_number(first);
        self.put_rest(others);
    }
}
