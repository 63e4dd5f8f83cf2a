// `Line::kind`.
ghost use Rattle.std.specs.Prelude.{◌≡◌};
ghost use Rattle.read_kind.specs.Kind.{kind};

#[derive(Clone, Copy, Debug, PartialEq, Eq)]
pub enum Kind {
    Directive = 0,
    Comment = 1,
    Record = 2,
}

// What a line is: `##` begins a directive, else `#` a comment; every other line, the empty one included, is a record.
#[tactic(auto, using(crate::proofs::KindLaws::kinds_told))]
pub fn kind_of(line: &[u8]) -> Kind
    ensures { result ≡ kind line.now }
{
    match line {
        [b'#', b'#', ..] => Kind::Directive,
        [b'#', ..] => Kind::Comment,
        _ => Kind::Record,
    }
}
