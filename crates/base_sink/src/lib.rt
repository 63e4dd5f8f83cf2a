// Takes a text piece by piece: a lent buffer lays the pieces one behind the other, and a count adds up their lengths.
// In the Rust: `io::Write`.
//
// What writes a text writes it to any sink, so one function both measures the text and lays it.
//
// Proved: what each sink has taken, and that pieces in a row are the one text that they make. Assumes nothing.
#![tactic(auto)]

ghost use Rattle.std.specs.Prelude.{◌≡◌, [], ◌∷◌, List, ℕ};
ghost use Rattle.base_sink.specs.Sink.{SinkLaws, PageTook, CountTook, NowhereTook, page_shows, count_shows, nowhere_shows};
ghost use Rattle.base_sink.specs.Laws.{page_laws, count_laws, nowhere_laws};

pub trait Sink {
    // What the sink is behind a text, and what it was before.
    ghost took: { List ℕ → Self → Self → Type 0 };

    // What it shows: the bytes that it holds, and its number.
    ghost shows: { Self → List ℕ × ℕ };

    ghost laws: { SinkLaws took shows };

    fn byte(&mut self, b: u8)
        ensures { took (b ∷ []) self.old self.new };

    fn text(&mut self, s: &[u8])
        ensures { took s.now self.old self.new };
}

// A lent buffer, laid from `at` on: what would stand past its end is left out.
#[derive(Drop)]
pub struct Page<'a> {
    pub out: &'a mut [u8],
    pub at: usize,
}

impl<'a> Sink for Page<'a> {
    ghost took = { PageTook };

    ghost shows = { page_shows };

    ghost laws = { page_laws };

    fn byte(&mut self, b: u8) {
        if self.at < self.out.len() {
            self.at = base_buffer::lay_byte(b, self.out, self.at);
        }
    }

    fn text(&mut self, s: &[u8]) {
        if self.at < self.out.len() {
            self.at = base_buffer::lay(s, self.out, self.at);
        }
    }
}

// How many bytes came; where no number is so large, the largest.
#[derive(Clone, Copy)]
pub struct Count {
    pub bytes: usize,
}

impl Sink for Count {
    ghost took = { CountTook };

    ghost shows = { count_shows };

    ghost laws = { count_laws };

    fn byte(&mut self, _b: u8) {
        self.bytes = self.bytes.saturating_add(1);
    }

    fn text(&mut self, s: &[u8]) {
        self.bytes = self.bytes.saturating_add(s.len());
    }
}

// Keeps nothing of a text: for whoever asks alone whether there is one.
#[derive(Clone, Copy)]
pub struct Nowhere;

impl Sink for Nowhere {
    ghost took = { NowhereTook };

    ghost shows = { nowhere_shows };

    ghost laws = { nowhere_laws };

    fn byte(&mut self, _b: u8) {}

    fn text(&mut self, _s: &[u8]) {}
}
