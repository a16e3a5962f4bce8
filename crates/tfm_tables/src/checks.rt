ghost use Rattle.std.specs.Prelude.{◌≡◌, [], ◌∷◌, ◌≤◌, ◌<◌, ◌-◌, ◌||◌, not, nat_le};
ghost use Rattle.std.specs.List.{range_with_len, flat_map};
ghost use Rattle.tfm_words.specs.CountFaults.{AnswersFirst};
ghost use Rattle.tfm_tables.specs.Table.{entries_of, entry_at};
ghost use Rattle.tfm_words.specs.declared.table.Table.TheVariants.{LigKern};
ghost use Rattle.tfm_tables.specs.Character.{exists as exists_in};
ghost use Rattle.tfm_tables.specs.Program.{program_of, right_code_of};
ghost use Rattle.tfm_tables.specs.Acceptance.{all_measure_faults, codes_of, first_entry_faults, index_faults, instruction_faults, is_measure, is_right_code, is_zero, measure_faults, parameter_faults, start_faults, step_faults, table_faults, table_measure_faults};

use crate::tables::Tables;
use crate::{FontFault, Part, Step};
use tfm_words::Table;

fn check_index(code: u16, table: Table, index: u8, entries: u16) -> Result<(), FontFault>
    requires { code < 256 }
    ensures { AnswersFirst ((nat_le entries index, FontFault.CharIndex code table) ∷ []) result }
{
    if u16::from(index) < entries {
        Ok(())
    } else {
        Err(FontFault::CharIndex {
            code: code as u8,
            table,
        })
    }
}

#[tactic(auto, unfolding(crate::specs::Acceptance::index_faults))]
fn check_indices_of(tables: Tables<'_>, code: u16) -> Result<(), FontFault>
    requires { (tables.counts.now.bc ≤ code) × (code ≤ tables.counts.now.ec) }
    ensures { AnswersFirst (index_faults tables.entry.words.now code) result }
{
    let [width, height_depth, italic_tag, _] = tables.char_info(code);
    check_index(code, Table::Width, width, tables.counts.nw())?;
    check_index(code, Table::Height, height_depth / 16, tables.counts.nh())?;
    check_index(code, Table::Depth, height_depth % 16, tables.counts.nd())?;
    check_index(code, Table::Italic, italic_tag / 4, tables.counts.ni())
}

#[tactic(auto, using(crate::proofs::RangeLemmas::codes))]
fn check_indices(tables: Tables<'_>) -> Result<(), FontFault>
    ensures { AnswersFirst (flat_map (index_faults tables.entry.words.now) (codes_of tables.entry.words.now)) result }
{
    for code in tables.counts.bc()..tables.counts.ec() + 1 {
        check_indices_of(tables, code)?;
    }
    Ok(())
}

#[tactic(auto, unfolding(crate::specs::Acceptance::start_faults))]
fn check_start_of(tables: Tables<'_>, code: u16) -> Result<(), FontFault>
    requires { (tables.counts.now.bc ≤ code) × (code ≤ tables.counts.now.ec) }
    ensures { AnswersFirst (start_faults tables.entry.words.now code) result }
{
    let [_, _, italic_tag, remainder] = tables.char_info(code);
    if italic_tag % 4 == 1 && u16::from(remainder) >= tables.counts.nl() {
        Err(FontFault::LigStart(code as u8))
    } else {
        Ok(())
    }
}

#[tactic(auto, using(crate::proofs::RangeLemmas::codes))]
fn check_starts(tables: Tables<'_>) -> Result<(), FontFault>
    ensures { AnswersFirst (flat_map (start_faults tables.entry.words.now) (codes_of tables.entry.words.now)) result }
{
    for code in tables.counts.bc()..tables.counts.ec() + 1 {
        check_start_of(tables, code)?;
    }
    Ok(())
}

/// Checks that the four bytes of entry 0 of a table are zero. The table must have an entry 0.
#[tactic(auto, unfolding(crate::specs::Acceptance::is_zero))]
fn check_first_entry(tables: Tables<'_>, table: Table) -> Result<(), FontFault>
    requires { 0 < entries_of tables.words.now table }
    ensures { AnswersFirst ((not (is_zero (entry_at tables.entry.words.now table 0)), FontFault.FirstNotZero table) ∷ []) result }
{
    if tables.entry(table, 0) == [0, 0, 0, 0] {
        Ok(())
    } else {
        Err(FontFault::FirstNotZero(table))
    }
}

/// Checks entry 0 of each of the four tables that characters index.
#[tactic(auto, unfolding(crate::specs::Acceptance::first_entry_faults))]
fn check_first_entries(tables: Tables<'_>) -> Result<(), FontFault>
    ensures { AnswersFirst (first_entry_faults tables.entry.words.now) result }
{
    check_first_entry(tables, Table::Width)?;
    check_first_entry(tables, Table::Height)?;
    check_first_entry(tables, Table::Depth)?;
    check_first_entry(tables, Table::Italic)
}

#[tactic(auto, unfolding(crate::specs::Acceptance::is_measure))]
fn check_word(table: Table, index: usize, word: [u8; 4]) -> Result<(), FontFault>
    ensures { AnswersFirst ((not (is_measure word), FontFault.FixWordRange table index) ∷ []) result }
{
    if matches!(word[0], 0 | 255) {
        Ok(())
    } else {
        Err(FontFault::FixWordRange { table, index })
    }
}

#[tactic(auto, unfolding(crate::specs::Acceptance::measure_faults))]
fn check_measure(tables: Tables<'_>, table: Table, i: usize) -> Result<(), FontFault>
    requires { i < entries_of tables.words.now table }
    ensures { AnswersFirst (measure_faults tables.entry.words.now table i) result }
{
    check_word(table, i, tables.entry(table, i))
}

#[tactic(auto, using(crate::proofs::RangeLemmas::below), unfolding(crate::specs::Acceptance::table_measure_faults))]
fn check_table(tables: Tables<'_>, table: Table) -> Result<(), FontFault>
    ensures { AnswersFirst (table_measure_faults tables.entry.words.now table) result }
{
    let (_, entries) = tables.counts.table(table);
    for i in 0..entries {
        check_measure(tables, table, i)?;
    }
    Ok(())
}

#[tactic(auto, unfolding(crate::specs::Acceptance::parameter_faults))]
fn check_parameter(tables: Tables<'_>, number: usize) -> Result<(), FontFault>
    requires { (2 ≤ number) × (number ≤ tables.counts.now.np) }
    ensures { AnswersFirst (parameter_faults tables.entry.words.now number) result }
{
    check_word(Table::Param, number, tables.entry(Table::Param, number - 1))
}

/// Checks each parameter except number 1, the slant, which is never scaled.
#[tactic(auto, using(crate::proofs::RangeLemmas::ranges))]
fn check_parameters(tables: Tables<'_>) -> Result<(), FontFault>
    ensures { AnswersFirst (flat_map (parameter_faults tables.entry.words.now) (range_with_len 2 (tables.entry.counts.now.np - 1))) result }
{
    for number in 2..usize::from(tables.counts.np()) + 1 {
        check_parameter(tables, number)?;
    }
    Ok(())
}

fn check_part(index: usize, part: Part, is_wrong: bool) -> Result<(), FontFault>
    ensures { AnswersFirst ((is_wrong, FontFault.Step index part) ∷ []) result }
{
    if is_wrong {
        Err(FontFault::Step { index, part })
    } else {
        Ok(())
    }
}

/// Returns whether an instruction may be for this code on its right: the code is that of a character of
/// the font, or of the right boundary character.
#[tactic(auto, unfolding(crate::specs::Acceptance::is_right_code))]
fn is_right(tables: Tables<'_>, right: Option<u8>, code: u8) -> bool
    requires { right ≡ right_code_of (program_of tables.words.now) }
    ensures { result ≡ (exists_in tables.entry.words.now code || is_right_code tables.entry.words.now code) }
{
    tables.exists(code) || right == Some(code)
}

#[tactic(auto, unfolding(crate::specs::Acceptance::restart_faults, crate::specs::Acceptance::plain_faults, crate::specs::Acceptance::kern_index_of))]
fn check_step(tables: Tables<'_>, right: Option<u8>, i: usize, step: Step) -> Result<(), FontFault>
    requires right { right ≡ right_code_of (program_of tables.words.now) }
    requires within { i < entries_of tables.words.now LigKern }
    ensures { AnswersFirst (step_faults tables.entry.words.now i step) result }
{
    let steps = usize::from(tables.counts.nl());
    if step.skip > 128 {
        return check_part(i, Part::Restart, step.target() >= steps);
    }
    check_part(i, Part::Next, !is_right(tables, right, step.next))?;
    match step.kern_index() {
        None => check_part(i, Part::Ligature, !tables.exists(step.remainder))?,
        Some(kern) => check_part(i, Part::Kern, kern >= usize::from(tables.counts.nk()))?,
    }
    let following = i + usize::from(step.skip) + 1;
    check_part(i, Part::Skip, step.skip < 128 && following >= steps)
}

#[tactic(auto, unfolding(crate::specs::Acceptance::instruction_faults))]
fn check_instruction(tables: Tables<'_>, right: Option<u8>, i: usize) -> Result<(), FontFault>
    requires right { right ≡ right_code_of (program_of tables.words.now) }
    requires within { i < entries_of tables.words.now LigKern }
    ensures { AnswersFirst (instruction_faults tables.entry.words.now i) result }
{
    check_step(tables, right, i, tables.step(i))
}

#[tactic(auto, using(crate::proofs::RangeLemmas::below))]
fn check_program(tables: Tables<'_>) -> Result<(), FontFault>
    ensures { AnswersFirst (flat_map (instruction_faults tables.entry.words.now) (range_with_len 0 (entries_of tables.entry.words.now LigKern))) result }
{
    let right = tables.right_code();
    for i in 0..usize::from(tables.counts.nl()) {
        check_instruction(tables, right, i)?;
    }
    Ok(())
}

#[tactic(auto, using(crate::proofs::RangeLemmas::appended), unfolding(crate::specs::Acceptance::all_measure_faults))]
fn check_measures(tables: Tables<'_>) -> Result<(), FontFault>
    ensures { AnswersFirst (all_measure_faults tables.entry.words.now) result }
{
    check_table(tables, Table::Width)?;
    check_table(tables, Table::Height)?;
    check_table(tables, Table::Depth)?;
    check_table(tables, Table::Italic)?;
    check_table(tables, Table::Kern)?;
    check_parameters(tables)
}

/// Checks all tables of a font with lawful counts. The error is the first one in the order of
/// `FontFault`.
#[tactic(auto, using(crate::proofs::RangeLemmas::appended), unfolding(crate::specs::Acceptance::table_faults))]
pub fn check_tables(tables: Tables<'_>) -> Result<(), FontFault>
    ensures { AnswersFirst (table_faults tables.entry.words.now) result }
{
    check_indices(tables)?;
    check_starts(tables)?;
    check_first_entries(tables)?;
    check_measures(tables)?;
    check_program(tables)
}
