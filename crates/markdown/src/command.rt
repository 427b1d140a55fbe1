//! The program, over any reader and writer.
ghost use Rattle.std.specs.Prelude.{◌≡◌, [], IfErr, is_ok};
ghost use Rattle.std.specs.Prelude.{option_map, string_bytes, false};
ghost use Rattle.markdown_compile_options.specs.Mdx.{HasNoMdx};
ghost use Rattle.markdown_definition.specs.Html.{html};
ghost use Rattle.html_contents.specs.Texts.{tables_by};
ghost use Rattle.markdown_settings.specs.Settings.{faults_of, word_texts};
ghost use Rattle.markdown_devices.specs.Endings.{Ends, EndsBy, EndsOf};
ghost use Rattle.markdown_devices.specs.Program.{EndsForWords, Runs, WritesAnswer};
ghost use Rattle.markdown_devices.specs.Statuses.{status_of, MayComeOf};
ghost use Rattle.markdown_devices.specs.Watched.{has_failed};

use crate::transfer::run;
use markdown_compile_options::Options;
use markdown_devices::{Fault, RunError, Watched, answer, end, file_rows, flush, open_file};
use markdown_options::Tables;
use markdown_settings::{Settings, SettingsError, settings};
use markdown_tables::Builtin;
use std::alloc::Global;
use std::io::{Read, Write};
use std::rt::Files;

/// Runs the program, and returns its exit status: 0, 1 or 2. The words don't include its name.
///
/// If the words name a file, it is opened and read in place of `reader`. With status 0 the whole
/// output was written and flushed. A fault is printed as one line to `faults`. If that fails, the
/// status is still that of the fault.
pub fn program<S: Files + AllocGlobal, R: Read, W: Write, F: Write>(
    rt: &S,
    words: &[String],
    reader: &mut Watched<R>,
    writer: &mut Watched<W>,
    faults: &mut Watched<F>,
) -> u8
    requires reader { has_failed reader.old ≡ false }
    requires writer { has_failed writer.old ≡ false }
    requires faults { has_failed faults.old ≡ false }
    ensures { Runs (word_texts words.now) S.File.Read.remaining R.remaining W.contents F.contents
        reader.old reader.new writer.old writer.new faults.old faults.new result }
{
    let outcome = obey(rt, words, reader, writer);
    end(faults, &outcome)
}

/// Runs the command line.
fn obey<S: Files + AllocGlobal, R: Read, W: Write>(
    rt: &S,
    words: &[String],
    reader: &mut Watched<R>,
    writer: &mut Watched<W>,
) -> Result<(), Fault>
    requires reader { has_failed reader.old ≡ false }
    requires writer { has_failed writer.old ≡ false }
    ensures page { faults_of (word_texts words.now) ≡ []
        → EndsForWords (word_texts words.now) S.File.Read.remaining R.remaining W.contents
        reader.old reader.new writer.old writer.new (is_ok result) }
    ensures answer { ¬ (faults_of (word_texts words.now) ≡ [])
        → WritesAnswer (faults_of (word_texts words.now)) W.contents writer.old writer.new (is_ok result) }
    ensures unread { ¬ (faults_of (word_texts words.now) ≡ []) → reader.new ≡ reader.old }
    ensures fault { IfErr result (MayComeOf (faults_of (word_texts words.now))) }
{
    match settings(rt.alloc(), words) {
        Ok(settings) => page(rt, &settings, reader, writer),
        Err(SettingsError::Help(text)) => answer(writer, text),
        Err(SettingsError::Words) => Err(Fault::Words),
        Err(SettingsError::Memory) => Err(Fault::Run(RunError::Memory)),
    }
}

/// Prints the page, by these settings.
fn page<S: Files + AllocGlobal, R: Read, W: Write>(
    rt: &S,
    settings: &Settings,
    reader: &mut Watched<R>,
    writer: &mut Watched<W>,
) -> Result<(), Fault>
    requires reader { has_failed reader.old ≡ false }
    requires writer { has_failed writer.old ≡ false }
    requires without_mdx { HasNoMdx settings.now.options }
    ensures page { EndsBy (option_map string_bytes settings.now.file) (option_map string_bytes settings.now.references) settings.now.options
        S.File.Read.remaining R.remaining W.contents reader.old reader.new writer.old writer.new (is_ok result) }
    ensures status { IfErr result (λ fault. status_of fault ≡ 1) }
{
    match &settings.references {
        None => print_by(rt, settings, reader, writer, &Builtin),
        Some(path) => {
            let rows = file_rows(rt, path)?;
            print_by(rt, settings, reader, writer, &rows)
        }
    }
}

/// Prints the page of the file that these settings name, or of the reader, by these tables.
fn print_by<S: Files + AllocGlobal, R: Read, W: Write, T: Tables>(
    rt: &S,
    settings: &Settings,
    reader: &mut Watched<R>,
    writer: &mut Watched<W>,
    tables: &T,
) -> Result<(), Fault>
    requires reader { has_failed reader.old ≡ false }
    requires writer { has_failed writer.old ≡ false }
    requires without_mdx { HasNoMdx settings.now.options }
    ensures page { EndsOf (option_map string_bytes settings.now.file) S.File.Read.remaining R.remaining W.contents
        reader.old reader.new writer.old writer.new (is_ok result) (λ text. html (tables_by T.Tables tables.now) text settings.now.options) }
    ensures status { IfErr result (λ fault. status_of fault ≡ 1) }
{
    let options = &settings.options;
    match &settings.file {
        None => print(rt.alloc(), reader, writer, options, tables),
        Some(path) => {
            let mut file = open_file(rt, path)?;
            print(rt.alloc(), &mut file, writer, options, tables)
        }
    }
}

/// Prints a page, and flushes it.
fn print<R: Read, W: Write, T: Tables>(
    alloc: Global,
    reader: &mut Watched<R>,
    writer: &mut Watched<W>,
    options: &Options,
    tables: &T,
) -> Result<(), Fault>
    requires reader { has_failed reader.old ≡ false }
    requires writer { has_failed writer.old ≡ false }
    requires without_mdx { HasNoMdx options.now }
    ensures page { Ends R.remaining W.contents reader.old reader.new writer.old writer.new (is_ok result) (λ text.
        html (tables_by T.Tables tables.now) text options.now) }
    ensures status { IfErr result (λ fault. status_of fault ≡ 1) }
{
    run(alloc, reader, writer, options, tables).map_err(Fault::Run)?;
    flush(writer)
}
