//! The page of all faults, and the list of their lines.
ghost use Rattle.std.specs.Prelude.{◌≡◌, ◌++◌, IfOk, OnOk, string_bytes};
ghost use Rattle.std.specs.List.{flat_map};
ghost use Rattle.show_faults.specs.Pages.{IsFaultsList, IsFaultsPage, entry_text, section_lines, section_text};
ghost use Rattle.show_faults.specs.Texts.{title_line};

use crate::all::sections;
use crate::explanation::Explanation;
use crate::section::Section;
use crate::text::{explanation_text, title};
use std::alloc::{AllocError, Global};

/// Appends a heading with a fault's code and name, and below it the text of the explanation.
fn push_entry(alloc: Global, text: &mut String, explanation: &Explanation) -> Result<(), AllocError>
    ensures { OnOk result (string_bytes text.new ≡ string_bytes text.old ++ entry_text explanation.now) }
{
    let code = explanation.code;
    let name = explanation.name;
    let words = explanation_text(alloc, explanation)?;
    write!(text, "\n### {code} {name}\n\n```\n{words}```\n")
}

/// Appends an entry for each of these explanations.
fn push_entries(
    alloc: Global,
    text: &mut String,
    explanations: &[Explanation],
) -> Result<(), AllocError>
    ensures { OnOk result (string_bytes text.new
        ≡ string_bytes text.old ++ flat_map entry_text explanations.now) }
{
    for explanation in explanations {
        push_entry(alloc, text, explanation)?;
    }
    Ok(())
}

/// Appends a section: its heading, and its entries.
fn push_section(alloc: Global, text: &mut String, section: &Section) -> Result<(), AllocError>
    ensures { OnOk result (string_bytes text.new ≡ string_bytes text.old ++ section_text section.now) }
{
    let title = section.title;
    write!(text, "\n## {title}\n")?;
    push_entries(alloc, text, section.explanations)
}

/// Appends all these sections.
fn push_sections(alloc: Global, text: &mut String, sections: &[Section]) -> Result<(), AllocError>
    ensures { OnOk result (string_bytes text.new
        ≡ string_bytes text.old ++ flat_map section_text sections.now) }
{
    for section in sections {
        push_section(alloc, text, section)?;
    }
    Ok(())
}

/// Returns the page of all faults, in Markdown: a section for each kind, and in it the text of each
/// explanation behind a heading.
pub fn faults_page(alloc: Global) -> Result<String, AllocError>
    ensures page { IfOk result (λ page. IsFaultsPage (string_bytes page)) }
{
    let mut text = String::new(alloc);
    text.push_str(
        "# Faults\n\nWhat each fault means, an example, and what usually leads to it. `qlock-show explain all`\nwrites this page.\n",
    )?;
    push_sections(alloc, &mut text, &sections())?;
    Ok(text)
}

/// Appends the line of a fault.
fn push_title(alloc: Global, text: &mut String, explanation: &Explanation) -> Result<(), AllocError>
    ensures { OnOk result (string_bytes text.new ≡ string_bytes text.old ++ title_line explanation.now) }
{
    let title = title(alloc, explanation)?;
    write!(text, "{title}\n")
}

/// Appends the line of each of these faults.
fn push_titles(
    alloc: Global,
    text: &mut String,
    explanations: &[Explanation],
) -> Result<(), AllocError>
    ensures { OnOk result (string_bytes text.new
        ≡ string_bytes text.old ++ flat_map title_line explanations.now) }
{
    for explanation in explanations {
        push_title(alloc, text, explanation)?;
    }
    Ok(())
}

/// Appends the line of each fault of these sections.
fn push_section_titles(
    alloc: Global,
    text: &mut String,
    sections: &[Section],
) -> Result<(), AllocError>
    ensures { OnOk result (string_bytes text.new
        ≡ string_bytes text.old ++ flat_map section_lines sections.now) }
{
    for section in sections {
        push_titles(alloc, text, section.explanations)?;
    }
    Ok(())
}

/// Returns the lines of all faults, with the names of their arguments in place of numbers.
pub fn faults_list(alloc: Global) -> Result<String, AllocError>
    ensures list { IfOk result (λ list. IsFaultsList (string_bytes list)) }
{
    let mut text = String::new(alloc);
    push_section_titles(alloc, &mut text, &sections())?;
    Ok(text)
}
