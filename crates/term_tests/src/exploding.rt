//! Two terms whose most general instance is large.
use crate::made::term;
use std::alloc::Global;
use trs_core::{Args, OutOfMemory, Term};

/// h(x0,..,x(n-1),x0,..,x(n-1))
pub fn double(alloc: Global, n: u32) -> Result<Term, OutOfMemory> {
    let mut args = Vec::new(alloc);
    for _ in 0..2 {
        for i in 0..n {
            args.push(Term::Var(i))?;
        }
    }
    Ok(Term::App(3, Args::new(args)))
}

/// h(y1,..,yn,p(y0,y0),..,p(y(n-1),y(n-1))), where y0 is the first variable.
pub fn chain(alloc: Global, n: u32, first: u32) -> Result<Term, OutOfMemory> {
    let mut args = Vec::new(alloc);
    for i in 1..n.saturating_add(1) {
        args.push(Term::Var(first.saturating_add(i)))?;
    }
    for i in 0..n {
        let y = first.saturating_add(i);
        args.push(term(alloc, 2, [Term::Var(y), Term::Var(y)])?)?;
    }
    Ok(Term::App(3, Args::new(args)))
}
