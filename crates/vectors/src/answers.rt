// The answers that wait to be written: words, and a space behind each but the last of an answer, which a newline follows.
use floats::bits::bits;
use refusals::{Refusal, outcome_number};
use std::io::Stdout;
use text_lines::waiting::{Waiting, is_due, may_go, written};
use text_writing::hexadecimals::lay_bits;
use text_writing::laying::{first_bytes, lay, lay_signed, lay_whole};

#[derive(Drop)]
pub struct Answers {
    text: [u8; 65536],
    waiting: Waiting,
}

impl Answers {
    pub fn none() -> Answers {
        Answers {
            text: [0; 65536],
            waiting: written(true),
        }
    }

    // The space behind a word that ends at a place.
    fn space(&mut self, end: usize) {
        self.waiting.count = lay(&mut self.text, end, b" ");
    }

    pub fn word(&mut self, word: &[u8]) {
        let end = lay(&mut self.text, self.waiting.count, word);
        self.space(end);
    }

    pub fn whole(&mut self, n: u64) {
        let end = lay_whole(&mut self.text, self.waiting.count, n);
        self.space(end);
    }

    // The number of a refusal, 0 where there is none.
    pub fn outcome<T: Drop>(&mut self, outcome: &Result<T, Refusal>) {
        self.whole(u64::from(outcome_number(outcome)));
    }

    pub fn signed(&mut self, z: i64) {
        let end = lay_signed(&mut self.text, self.waiting.count, z);
        self.space(end);
    }

    pub fn bits(&mut self, bits: u64) {
        let end = lay_bits(&mut self.text, self.waiting.count, bits);
        self.space(end);
    }

    pub fn float(&mut self, x: f64) {
        self.bits(bits(x));
    }

    pub fn floats(&mut self, xs: &[f64]) {
        for x in xs {
            self.float(*x);
        }
    }

    // Each byte as two digits, all of them one word.
    pub fn hexadecimal(&mut self, bytes: &[u8]) {
        let mut digits = [0u8; 16];
        let mut end = self.waiting.count;
        for byte in bytes {
            let k = io::hex(u64::from(*byte), 2, &mut digits);
            end = lay(&mut self.text, end, first_bytes(&digits, k));
        }
        self.space(end);
    }

    // The newline of an answer takes the place of its last space.
    pub fn end(&mut self) {
        self.waiting.count = lay(&mut self.text, self.waiting.count.saturating_sub(1), b"\n");
    }

    // Whether so much waits that it is to be written before the next answer.
    pub fn are_due(&self) -> bool {
        is_due(&self.text, self.waiting)
    }

    // Writes what waits.
    pub fn flush(&mut self, out: Stdout) -> std::io::Result<()> {
        let goes = may_go(&self.text, self.waiting);
        if goes {
            out.write_all(first_bytes(&self.text, self.waiting.count))?;
        }
        self.waiting = written(goes);
        Ok(())
    }

    // Whether every answer so far has found room.
    pub fn are_well(&self) -> bool {
        self.waiting.well
    }
}
