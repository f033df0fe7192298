// The words of a line, read one behind the other (docs/VECTORS.md, "A line").
use floats::bits::of_bits;
use text_reading::fields::field;
use text_reading::hexadecimals::{hex_digit, read_hexadecimal};
use text_reading::texts::is_text;
use text_reading::wholes::{read_up_to, read_whole};

// What parts two words.
const SPACE: u8 = b' ';

// No line has so many words, the shortest of which is ` 0`.
pub const MOST: usize = 2048;

// A line, and where its next word starts: past its end where it has no more.
#[derive(Clone, Copy)]
pub struct Line<'a> {
    bytes: &'a [u8],
    next: usize,
}

// What a list has: its members are read one like the other.
pub trait Member: Copy {
    fn read(line: &mut Line) -> Option<Self>;
}

impl Member for u32 {
    fn read(line: &mut Line) -> Option<u32> {
        line.number()
    }
}

impl Member for f64 {
    fn read(line: &mut Line) -> Option<f64> {
        line.float()
    }
}

// The byte that two hexadecimal digits write.
fn byte_of(high: u8, low: u8) -> Option<u8> {
    u8::try_from(hex_digit(high)? << 4 | hex_digit(low)?).ok()
}

impl<'a> Line<'a> {
    pub fn new(bytes: &'a [u8]) -> Line<'a> {
        Line { bytes, next: 0 }
    }

    // The next word, for whose end the line is walked once; a word that is not there is empty, and nothing reads that.
    pub fn word(&mut self) -> &'a [u8] {
        let word = field(self.bytes, self.next, SPACE);
        self.next = self.next.saturating_add(word.len()).saturating_add(1);
        word
    }

    // Nothing, where no word is left.
    pub fn end(&self) -> Option<()> {
        (self.bytes.len() < self.next).then_some(())
    }

    pub fn whole(&mut self) -> Option<u64> {
        read_whole(self.word())
    }

    // A whole number of at most so much.
    pub fn up_to(&mut self, most: u64) -> Option<u64> {
        read_up_to(self.word(), most)
    }

    pub fn number(&mut self) -> Option<u32> {
        u32::try_from(self.whole()?).ok()
    }

    // The place of something in an array.
    pub fn place(&mut self) -> Option<usize> {
        Some(self.number()? as usize)
    }

    pub fn flag(&mut self) -> Option<bool> {
        Some(self.up_to(1)? == 1)
    }

    // The bits of a float; those of every NaN are written `nan`.
    pub fn bits(&mut self) -> Option<u64> {
        let word = self.word();
        if is_text(word, b"nan") {
            return Some(0x7FF8_0000_0000_0000);
        }
        read_hexadecimal(word)
    }

    pub fn float(&mut self) -> Option<f64> {
        Some(of_bits(self.bits()?))
    }

    pub fn three_floats(&mut self) -> Option<[f64; 3]> {
        Some([self.float()?, self.float()?, self.float()?])
    }

    // A list, its length in front, read into a room that is long enough for any of a line.
    pub fn list<'b, T: Member>(&mut self, room: &'b mut [T]) -> Option<&'b [T]> {
        let members = room.get_mut(..self.place()?)?;
        for member in members.iter_mut() {
            *member = T::read(self)?;
        }
        Some(members)
    }

    // Bytes, one word of two hexadecimal digits for each; `-` for none.
    pub fn bytes<'b>(&mut self, room: &'b mut [u8]) -> Option<&'b [u8]> {
        let word = self.word();
        if is_text(word, b"-") {
            return room.get(..0);
        }
        if word.is_empty() || word.len() % 2 == 1 {
            return None;
        }
        let bytes = room.get_mut(..word.len() / 2)?;
        for (i, byte) in bytes.iter_mut().enumerate() {
            *byte = byte_of(*word.get(2 * i)?, *word.get(2 * i + 1)?)?;
        }
        Some(bytes)
    }
}
