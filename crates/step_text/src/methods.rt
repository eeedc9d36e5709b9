ghost use Rattle.std.specs.Prelude.{◌≡◌};
ghost use Rattle.names_text.specs.Named.{NamedSystem};
ghost use Rattle.sexp_core.specs.Items.{view};
ghost use Rattle.text_reading.specs.Reading.{chosen, word as word_among};
ghost use Rattle.text_reading.specs.Seen.{seen};
ghost use Rattle.path_text.specs.Sharing.{Sharing};
ghost use Rattle.step_text.specs.Steps.{forms};
ghost use Rattle.step_text.specs.MethodForms.{form_of};

use sexp_core::Sexp;
use text_reading::Read;

/// The methods that are read.
#[derive(Clone, Copy)]
pub enum Method {
    Dp,
    Graph,
    Subterm,
    Poly,
    Lpo,
    Kbo,
    UsablePoly,
    Loop,
    Newman,
    Parallel,
    Strong,
    Label,
    Fork,
    Confluence,
}

/// The word of a method.
pub fn read_method_word(item: &Sexp) -> Read<Method>
    ensures { (named : NamedSystem) (sharing : Sharing)
        → word_among (forms named sharing) (view item.now) ≡ seen (form_of named sharing) result }
{
    match item {
        Sexp::Word(at, word) => method_by(word.as_slice(), *at),
        Sexp::List(at, _) => Err(*at),
    }
}

/// The method of a word at a place.
fn method_by(word: &[u8], at: u32) -> Read<Method>
    ensures { (named : NamedSystem) (sharing : Sharing)
        → chosen (forms named sharing) at word.now ≡ seen (form_of named sharing) result }
{
    if word == b"dp".as_slice() {
        Ok(Method::Dp)
    } else if word == b"graph".as_slice() {
        Ok(Method::Graph)
    } else if word == b"subterm".as_slice() {
        Ok(Method::Subterm)
    } else if word == b"poly".as_slice() {
        Ok(Method::Poly)
    } else if word == b"lpo".as_slice() {
        Ok(Method::Lpo)
    } else if word == b"kbo".as_slice() {
        Ok(Method::Kbo)
    } else if word == b"usable-poly".as_slice() {
        Ok(Method::UsablePoly)
    } else if word == b"loop".as_slice() {
        Ok(Method::Loop)
    } else if word == b"newman".as_slice() {
        Ok(Method::Newman)
    } else if word == b"parallel".as_slice() {
        Ok(Method::Parallel)
    } else if word == b"strong".as_slice() {
        Ok(Method::Strong)
    } else if word == b"label".as_slice() {
        Ok(Method::Label)
    } else if word == b"fork".as_slice() {
        Ok(Method::Fork)
    } else if word == b"confluence".as_slice() {
        Ok(Method::Confluence)
    } else {
        Err(at)
    }
}
