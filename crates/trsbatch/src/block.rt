ghost use Rattle.std.specs.Prelude.{◌≡◌, ◌++◌, [], IfOk, OnOk, string_bytes};
ghost use Rattle.trsbatch.specs.Blocks.{block_line, block_text, blocks_text};
ghost use Rattle.trsbatch.specs.Problems.{plain_block, plain_blocks};

use crate::problem::Problem;
use itoa::Buffer;
use program_edge::Status;
use std::alloc::{AllocError, Global};

/// What is answered for a problem of a list: a status, and a text with it.
#[derive(Drop)]
pub(crate) struct Block {
    pub(crate) status: Status,
    pub(crate) text: Vec<u8>,
}

/// The text of the blocks of problems, one after the other.
pub(crate) fn text_of(
    alloc: Global,
    problems: &[Problem],
    blocks: &[Block],
) -> Result<Vec<u8>, AllocError>
    ensures { IfOk result (λ text.
        text.items ≡ blocks_text (plain_blocks problems.now blocks.now)) }
{
    let mut text = Vec::new(alloc);
    push_blocks(&mut text, problems, blocks)?;
    Ok(text)
}

fn push_blocks(text: &mut Vec<u8>, problems: &[Problem], blocks: &[Block]) -> Result<(), AllocError>
    ensures { OnOk result (text.new.items
        ≡ text.old.items ++ blocks_text (plain_blocks problems.now blocks.now)) }
{
    match (problems.split_first(), blocks.split_first()) {
        (Some((problem, other_problems)), Some((block, other_blocks))) => {
            push_block(text, problem, block)?;
            push_blocks(text, other_problems, other_blocks)
        }
        _ => Ok(()),
    }
}

fn push_block(text: &mut Vec<u8>, problem: &Problem, block: &Block) -> Result<(), AllocError>
    ensures { OnOk result
        (text.new.items ≡ text.old.items ++ block_text (plain_block problem.now block.now)) }
{
    push_line(text, problem, block.status)?;
    text.extend_from_slice(&block.text)
}

// The line that names the problem and the status.
fn push_line(text: &mut Vec<u8>, problem: &Problem, status: Status) -> Result<(), AllocError>
    ensures { OnOk result (text.new.items ≡ text.old.items
        ++ block_line (record { name = string_bytes problem.now.name; status = status; text = [] })) }
{
    let mut buffer = Buffer::new();
    text.extend_from_slice(b"problem ")?;
    text.extend_from_slice(problem.name.as_bytes())?;
    text.push(b' ')?;
    text.extend_from_slice(buffer.format(status.code()).as_bytes())?;
    text.push(b'\n')?;
    Ok(())
}
