// The text, put into a lent room piece by piece.
ghost use Rattle.std.specs.Prelude.{◌%◌, ◌≡◌};
ghost use Rattle.report.specs.Text.{digit, decimal, told, told_line, line_text, list_text};
ghost use Rattle.report.specs.Stages.{HasPlace, Wrote};

// A lent room, and the index behind what was put into it.
#[derive(Drop)]
pub(crate) struct Writer<'a> {
    room: &'a mut [u8],
    pub(crate) at: usize,
}

impl<'a> Writer<'a> {
    pub(crate) fn new(room: &'a mut [u8]) -> Writer<'a>
        ensures lent { result.room.ghost_name ≡ room.entry.ghost_name }
        ensures same { result.room.now ≡ room.old }
        ensures at { result.at ≡ 0 }
    {
        Writer { room, at: 0 }
    }

    fn put(&mut self, text: &[u8])
        requires { HasPlace self.old text.now }
        ensures { Wrote self.old text.now self.new }
    {
        octets::lay(text, self.at, self.room);
        self.at += text.len();
    }

    // By hand: `write!` goes through a text of the kit's, with an error of its own, and this has to stand in the lent room.
    fn put_digit(&mut self, number: usize)
        requires { HasPlace self.old (digit (number % 10)) }
        ensures { Wrote self.old (digit (number % 10)) self.new }
    {
        self.room[self.at] = b'0' + (number % 10) as u8;
        self.at += 1;
    }

    // The digits before the last are those of the tenth.
    fn put_decimal(&mut self, number: usize)
        requires { HasPlace self.old (decimal number) }
        ensures { Wrote self.old (decimal number) self.new }
    {
        if 10 <= number {
            self.put_decimal(number / 10);
        }
        self.put_digit(number);
    }

    fn put_told(&mut self, word: &[u8], number: usize)
        requires { HasPlace self.old (told word.now number) }
        ensures { Wrote self.old (told word.now number) self.new }
    {
        self.put(word);
        self.put_decimal(number);
    }

    pub(crate) fn put_told_line(&mut self, word: &[u8], number: usize)
        requires { HasPlace self.old (told_line word.now number) }
        ensures { Wrote self.old (told_line word.now number) self.new }
    {
        self.put_told(word, number);
        self.put(b"\n");
    }

    fn put_line(&mut self, line: u8, count: u8, crossed: u8)
        requires { HasPlace self.old (line_text line count crossed) }
        ensures { Wrote self.old (line_text line count crossed) self.new }
    {
        self.put_decimal((line / 16) as usize);
        self.put_told(b".", (line % 16) as usize);
        self.put_told(b" count ", count as usize);
        self.put_told_line(b" crossed ", crossed as usize);
    }

    // Every entry of three octets as a line.
    pub(crate) fn put_list(&mut self, list: &[u8])
        requires { HasPlace self.old (list_text list.now) }
        ensures { Wrote self.old (list_text list.now) self.new }
    {
        for entry in list.chunks_exact(3) {
            self.put_line(entry[0], entry[1], entry[2]);
        }
    }
}
