ghost use Rattle.std.specs.Prelude.{◌≡◌, ◌++◌, flat_map, IfOk, OnOk};
ghost use Rattle.check_texts.specs.Verdicts.{count_words, finding as finding_of, json_accepted, json_finding, json_line as json_line_of, json_name, json_verdict, text_line as text_line_of, verdict_text as verdict_text_of, warning_in, warnings_text};

use crate::verdict::first_refusal;
use crate::{Verdict, Warning};
use font_texts::{
    Numbered, OutputFormat, number_of, push_escaped_text, push_hex, push_json_string,
};
use std::alloc::{AllocError, Global};

/// Returns the text of a font with this name and this verdict in a format. The name may be any bytes. As text it is
/// escaped as in a listing; in JSON it is a string, or hexadecimal if it isn't UTF-8. Fails if an allocation fails.
pub fn verdict_text(
    alloc: Global,
    format: OutputFormat,
    name: &[u8],
    verdict: &Verdict,
) -> Result<Vec<u8>, AllocError>
    ensures { IfOk result (λ text. text.items ≡ verdict_text_of format (name.now, verdict.now)) }
{
    match format {
        OutputFormat::Text => text_line(alloc, name, verdict),
        OutputFormat::Json => json_line(alloc, name, verdict),
    }
}

/// Returns the name and the finding, with a line for each warning that is printed.
#[tactic(auto, using(crate::proofs::RangeLemmas::joined), unfolding(crate::specs::Verdicts::text_line))]
fn text_line(alloc: Global, name: &[u8], verdict: &Verdict) -> Result<Vec<u8>, AllocError>
    ensures { IfOk result (λ text. text.items ≡ text_line_of (name.now, verdict.now)) }
{
    let mut text = Vec::new(alloc);
    push_escaped_text(&mut text, name)?;
    text.extend_from_slice(b": ")?;
    push_finding(alloc, &mut text, verdict)?;
    text.extend_from_slice(b"\n")?;
    Ok(text)
}

/// Returns the name and the finding as a JSON object.
#[tactic(auto, using(crate::proofs::RangeLemmas::joined), unfolding(crate::specs::Verdicts::json_line))]
fn json_line(alloc: Global, name: &[u8], verdict: &Verdict) -> Result<Vec<u8>, AllocError>
    ensures { IfOk result (λ text. text.items ≡ json_line_of (name.now, verdict.now)) }
{
    let mut text = Vec::new(alloc);
    text.extend_from_slice(b"{")?;
    push_json_name(&mut text, name)?;
    text.extend_from_slice(b"\",\"finding\":")?;
    push_json_finding(alloc, &mut text, verdict)?;
    text.extend_from_slice(b"}\n")?;
    Ok(text)
}

/// Appends the member with a name, as far as the end of its string.
#[tactic(auto, using(crate::proofs::RangeLemmas::joined, crate::proofs::NameLemmas::named))]
fn push_json_name(text: &mut Vec<u8>, name: &[u8]) -> Result<(), AllocError>
    ensures { OnOk result (text.new.items ≡ text.old.items ++ json_name name.now) }
{
    match str::from_utf8(name) {
        Ok(_) => {
            text.extend_from_slice(b"\"font\":\"")?;
            push_json_string(text, name)
        }
        Err(_) => {
            text.extend_from_slice(b"\"font_hex\":\"")?;
            push_hex(text, name)
        }
    }
}

fn push_finding(alloc: Global, text: &mut Vec<u8>, verdict: &Verdict) -> Result<(), AllocError>
    ensures { OnOk result (text.new.items ≡ text.old.items ++ finding_of verdict.now) }
{
    match verdict {
        Verdict::Accepted(warnings) => push_accepted(alloc, text, warnings.as_slice()),
        Verdict::Refused(fault) => {
            let numbered = Numbered(*fault);
            let words = format!(in alloc; "refused: {numbered}")?;
            text.extend_from_slice(words.as_bytes())
        }
        Verdict::NotRead => text.extend_from_slice(b"not read"),
    }
}

/// Appends the first reason for which TeX refuses the font, or, if it has none, the number of warnings and a line
/// for each.
#[tactic(auto, using(crate::proofs::RangeLemmas::joined))]
fn push_accepted(alloc: Global, text: &mut Vec<u8>, warnings: &[Warning]) -> Result<(), AllocError>
    ensures { OnOk result (text.new.items ≡ text.old.items ++ warnings_text warnings.now) }
{
    if let Some(reason) = first_refusal(warnings) {
        let words = format!(in alloc; "refused by TeX: {reason}")?;
        return text.extend_from_slice(words.as_bytes());
    }
    push_count(alloc, text, warnings.len())?;
    push_warnings(alloc, text, OutputFormat::Text, warnings)
}

/// Appends that a font is accepted with this number of warnings.
fn push_count(alloc: Global, text: &mut Vec<u8>, count: usize) -> Result<(), AllocError>
    ensures { OnOk result (text.new.items ≡ text.old.items ++ count_words count) }
{
    if count == 0 {
        return text.extend_from_slice(b"accepted");
    }
    let noun = if count == 1 { " warning" } else { " warnings" };
    let words = format!(in alloc; "accepted, {count}{noun}")?;
    text.extend_from_slice(words.as_bytes())
}

/// Appends the value of the member `finding`, and the members after it.
fn push_json_finding(alloc: Global, text: &mut Vec<u8>, verdict: &Verdict) -> Result<(), AllocError>
    ensures { OnOk result (text.new.items ≡ text.old.items ++ json_finding verdict.now) }
{
    match verdict {
        Verdict::Accepted(warnings) => push_json_accepted(alloc, text, warnings.as_slice()),
        Verdict::Refused(fault) => {
            let number = number_of(*fault);
            let members = format!(in alloc;
                "\"refused\",\"error\":{number},\"words\":\"{fault}\""
            )?;
            text.extend_from_slice(members.as_bytes())
        }
        Verdict::NotRead => text.extend_from_slice(b"\"not read\""),
    }
}

/// Appends the same for an accepted font.
#[tactic(auto, using(crate::proofs::RangeLemmas::joined))]
fn push_json_accepted(
    alloc: Global,
    text: &mut Vec<u8>,
    warnings: &[Warning],
) -> Result<(), AllocError>
    ensures { OnOk result (text.new.items ≡ text.old.items ++ json_accepted warnings.now) }
{
    text.extend_from_slice(json_word(first_refusal(warnings)))?;
    let Some((first, rest)) = warnings.split_first() else {
        return Ok(());
    };
    let member = format!(in alloc; ",\"warnings\":[\"{first}\"")?;
    text.extend_from_slice(member.as_bytes())?;
    push_warnings(alloc, text, OutputFormat::Json, rest)?;
    text.extend_from_slice(b"]")
}

/// Returns the JSON value for the first reason for which TeX refuses a font, if it has one.
fn json_word(reason: Option<Warning>) -> &'static [u8]
    ensures { result.now ≡ json_verdict reason }
{
    match reason {
        Some(_) => b"\"refused by TeX\"",
        None => b"\"accepted\"",
    }
}

/// Appends each warning to the finding of its font.
fn push_warnings(
    alloc: Global,
    text: &mut Vec<u8>,
    format: OutputFormat,
    warnings: &[Warning],
) -> Result<(), AllocError>
    ensures { OnOk result (text.new.items ≡ text.old.items ++ flat_map (warning_in format) warnings.now) }
{
    for warning in warnings {
        push_warning(alloc, text, format, *warning)?;
    }
    Ok(())
}

/// Appends a line feed and the line of a warning, or a comma and a JSON string.
fn push_warning(
    alloc: Global,
    text: &mut Vec<u8>,
    format: OutputFormat,
    warning: Warning,
) -> Result<(), AllocError>
    ensures { OnOk result (text.new.items ≡ text.old.items ++ warning_in format warning) }
{
    let shown = match format {
        OutputFormat::Text => format!(in alloc; "\n  {warning}")?,
        OutputFormat::Json => format!(in alloc; ",\"{warning}\"")?,
    };
    text.extend_from_slice(shown.as_bytes())
}
