ghost use Rattle.std.specs.Prelude.{◌≡◌};
ghost use Rattle.sexp_core.specs.Items.{view, views};
ghost use Rattle.ari_text.specs.Entries.{entry_of, list_entry, three, ended, begins_with_colon as has_colon, declaration};
ghost use Rattle.text_reading.specs.Reading.{place_of};
ghost use Rattle.ari_text.specs.EntryView.{entry_view, saying_view};

use sexp_core::Sexp;

/// What the members of an item say, up to an attribute.
#[derive(Clone, Copy)]
pub enum Saying<'a, 't> {
    /// A name and its place, an arity and its place.
    Declares(&'a [u8], u32, &'a [u8], u32),
    /// A left side and a right side.
    Rewrites(&'a Sexp<'t>, &'a Sexp<'t>),
    Nothing,
}

/// What an item says, with the place of its attribute, if it has one.
#[derive(Clone, Copy)]
pub struct Entry<'a, 't> {
    pub saying: Saying<'a, 't>,
    pub attribute: Option<u32>,
}

const SAYS_NOTHING: Entry<'static, 'static> = Entry {
    saying: Saying::Nothing,
    attribute: None,
};

pub fn read_entry<'a, 't>(item: &'a Sexp<'t>) -> Entry<'a, 't>
    ensures { entry_view result ≡ entry_of (view item.now) }
{
    match item {
        Sexp::Word(_, _) => SAYS_NOTHING,
        Sexp::List(_, members) => read_list(members),
    }
}

fn read_list<'a, 't>(members: &'a [Sexp<'t>]) -> Entry<'a, 't>
    ensures { entry_view result ≡ list_entry (views members.now) }
{
    let Some((Sexp::Word(_, head), rest)) = members.split_first() else {
        return SAYS_NOTHING;
    };
    let Some((x, rest)) = rest.split_first() else {
        return SAYS_NOTHING;
    };
    let Some((y, more)) = rest.split_first() else {
        return SAYS_NOTHING;
    };
    read_end(read_three(head, x, y), more)
}

fn read_three<'a, 't>(head: &[u8], x: &'a Sexp<'t>, y: &'a Sexp<'t>) -> Saying<'a, 't>
    ensures { saying_view result ≡ three head.now (view x.now) (view y.now) }
{
    if head == b"fun".as_slice() {
        read_declaration(x, y)
    } else if head == b"rule".as_slice() {
        Saying::Rewrites(x, y)
    } else {
        Saying::Nothing
    }
}

fn read_declaration<'a, 't>(x: &'a Sexp<'t>, y: &'a Sexp<'t>) -> Saying<'a, 't>
    ensures { saying_view result ≡ declaration (view x.now) (view y.now) }
{
    match (x, y) {
        (Sexp::Word(name_at, name), Sexp::Word(arity_at, arity)) => {
            Saying::Declares(name, *name_at, arity, *arity_at)
        }
        _ => Saying::Nothing,
    }
}

// The entry, by what stands behind its three members.
fn read_end<'a, 't>(saying: Saying<'a, 't>, more: &[Sexp]) -> Entry<'a, 't>
    ensures { entry_view result ≡ ended (saying_view saying.entry) (views more.now) }
{
    match more.split_first() {
        None => Entry {
            saying,
            attribute: None,
        },
        Some((Sexp::List(_, _), _)) => SAYS_NOTHING,
        Some((Sexp::Word(at, word), _)) => {
            if begins_with_colon(word) {
                Entry {
                    saying,
                    attribute: Some(*at),
                }
            } else {
                SAYS_NOTHING
            }
        }
    }
}

fn begins_with_colon(word: &[u8]) -> bool
    ensures { result ≡ has_colon word.now }
{
    match word.first() {
        None => false,
        Some(byte) => *byte == b':',
    }
}
