// Answers, as characters: what each call hands back, as the library itself tells it.
use crate::text::Text;
use frame::FrameAnswer;
use hex_line::LineAnswer;
use keys::{KeyAnswer, KeySet};
use stream::{Added, Stream};
use tag::TagAnswer;
use writer::Written;

impl Text {
    // A key set, field by field.
    fn key_set(&mut self, set: &KeySet) {
        self.bytes(&[set.order, set.bits]);
        self.bytes(&set.round);
        self.bytes(&set.subkeys);
        self.bytes(&set.full);
        self.bytes(&set.short);
    }

    // The steps of both kinds.
    fn counts(&mut self, whole: usize, four: usize) {
        self.number(whole);
        self.number(four);
    }

    // What a call answers that makes a key set.
    pub(crate) fn key_answer(&mut self, a: KeyAnswer) {
        self.byte(a.number);
        self.number(a.steps);
        self.key_set(&a.keys);
    }

    // A stream, field by field.
    pub(crate) fn stream(&mut self, s: &Stream) {
        self.number(s.total);
        self.bytes(&s.value);
        self.bytes(&s.held);
        self.number(s.count);
        self.counts(s.whole, s.four);
    }

    // What adding answers.
    pub(crate) fn added(&mut self, a: Added) {
        self.byte(a.number);
        self.stream(&a.stream);
    }

    // What a call that makes or checks a tag answers.
    pub(crate) fn tag_answer(&mut self, a: TagAnswer) {
        self.byte(a.number);
        self.counts(a.whole, a.four);
    }

    // What decoding a line or encoding bytes answers.
    pub(crate) fn line_answer(&mut self, a: LineAnswer) {
        self.byte(a.number);
        self.number(a.written);
    }

    // What judging a frame answers.
    pub(crate) fn frame_answer(&mut self, a: FrameAnswer) {
        self.byte(a.number);
        self.counts(a.whole, a.four);
        self.number(a.body);
    }

    // What writing a frame line answers.
    pub(crate) fn written(&mut self, a: Written) {
        self.byte(a.number);
        self.counts(a.whole, a.four);
        self.number(a.written);
    }

    // Bytes that are handed back: how many, and each.
    pub(crate) fn part(&mut self, bytes: &[u8]) {
        self.number(bytes.len());
        self.bytes(bytes);
    }
}
