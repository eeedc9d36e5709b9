/// A filtered term at its root: a variable, or a symbol with the list of its arguments.
#[derive(Clone, Copy)]
pub(crate) enum Root<L> {
    Variable(u32),
    Symbol(u32, L),
}
