//! The normal text of a version.

ghost use Rattle.std.specs.Prelude.{◌≡◌, ◌++◌, IfOk, OnOk, codes};
ghost use Rattle.std.specs.List.{flat_map};
ghost use Rattle.std.specs.String.{string_bytes};
ghost use Rattle.path_name.specs.Decimals.{decimal_text};
ghost use Rattle.version_norm.specs.Versions.{joined, numbers_text, stage_text, modifier_text, dev_text, numbered_text, normal_text};

use crate::version::{Modifier, Numbered, Numbers, Stage, Version};
use std::alloc::{AllocError, Global};

fn push_number(text: &mut String, number: u64) -> Result<(), AllocError>
    ensures { OnOk result (string_bytes text.new ≡ string_bytes text.old ++ decimal_text number) }
{
    write!(text, "{number}")
}

fn push_numbers(text: &mut String, numbers: Numbers) -> Result<(), AllocError>
    ensures { OnOk result (string_bytes text.new ≡ string_bytes text.old ++ numbers_text numbers) }
{
    push_number(text, numbers.major)?;
    text.push_str(".")?;
    push_number(text, numbers.minor)?;
    text.push_str(".")?;
    push_number(text, numbers.release)?;
    text.push_str(".")?;
    push_number(text, numbers.build)
}

fn push_dotted_number(text: &mut String, number: u64) -> Result<(), AllocError>
    ensures { OnOk result (string_bytes text.new ≡ string_bytes text.old ++ codes "." ++ decimal_text number) }
{
    text.push_str(".")?;
    push_number(text, number)
}

fn push_dotted_numbers(text: &mut String, numbers: &[u64]) -> Result<(), AllocError>
    ensures { OnOk result (string_bytes text.new ≡ string_bytes text.old ++ flat_map (λ n. codes "." ++ decimal_text n) numbers.now) }
{
    for number in numbers {
        push_dotted_number(text, *number)?;
    }
    Ok(())
}

fn push_joined(text: &mut String, numbers: &[u64]) -> Result<(), AllocError>
    ensures { OnOk result (string_bytes text.new ≡ string_bytes text.old ++ joined numbers.now) }
{
    match numbers {
        [] => Ok(()),
        [first, rest @ ..] => {
            push_number(text, *first)?;
            push_dotted_numbers(text, rest)
        }
    }
}

fn stage_word(stage: Stage) -> &'static str
    ensures { result.now ≡ stage_text stage }
{
    match stage {
        Stage::Alpha => "alpha",
        Stage::Beta => "beta",
        Stage::Rc => "RC",
        Stage::Patch => "patch",
    }
}

fn push_modifier(text: &mut String, modifier: &Option<Modifier>) -> Result<(), AllocError>
    ensures { OnOk result (string_bytes text.new ≡ string_bytes text.old ++ modifier_text modifier.now) }
{
    if let Some(modifier) = modifier {
        text.push_str("-")?;
        text.push_str(stage_word(modifier.stage))?;
        push_joined(text, modifier.numbers.as_slice())?;
    }
    Ok(())
}

fn push_dev(text: &mut String, dev: bool) -> Result<(), AllocError>
    ensures { OnOk result (string_bytes text.new ≡ string_bytes text.old ++ dev_text dev) }
{
    if dev {
        text.push_str("-dev")?;
    }
    Ok(())
}

fn numbered_bytes(alloc: Global, numbered: &Numbered) -> Result<Vec<u8>, AllocError>
    ensures { IfOk result (λ text. text.items ≡ numbered_text numbered.now) }
{
    let mut text = String::new(alloc);
    push_numbers(&mut text, numbered.numbers)?;
    push_modifier(&mut text, &numbered.modifier)?;
    push_dev(&mut text, numbered.dev)?;
    Ok(text.into_bytes())
}

/// The normal text: a branch's name; else the four numbers joined by `.`, then `-` and the modifier with its
/// numbers joined by `.`, then `-dev` for a dev mark. Its one refusal is want of memory.
pub fn print(alloc: Global, version: &Version) -> Result<Vec<u8>, AllocError>
    ensures { IfOk result (λ text. text.items ≡ normal_text version.now) }
{
    match version {
        Version::Branch(name) => Vec::from_slice(alloc, name.as_slice()),
        Version::Numbered(numbered) => numbered_bytes(alloc, numbered),
    }
}
