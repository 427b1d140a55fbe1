//! From a reader to a writer.
ghost use Rattle.std.specs.Prelude.{◌≡◌, ◌≤◌, ◌||◌};
ghost use Rattle.std.specs.Prelude.{IfOk, IfErr, OnOk, IfSome, IsTrue, true, false, length, string_bytes};
ghost use Rattle.std.specs.Io.KnownBytes.{Appends, Keeps};
ghost use Rattle.markdown_compile_options.specs.Mdx.{HasNoMdx};
ghost use Rattle.markdown_definition.specs.Html.{html};
ghost use Rattle.html_contents.specs.Texts.{tables_by};
ghost use Rattle.markdown_devices.specs.Watched.{device, has_failed, has_stopped, has_ended, has_flushed, has_flush_failed, came_to_end};
ghost use Rattle.markdown_devices.specs.Faults.{is_read_error, is_write_error, is_size_error};
ghost use Rattle.markdown_devices.specs.Faults.{read_failed, write_failed, write_stopped, size_failed, utf8_failed, reads_all};
ghost use Rattle.markdown_devices.specs.Transfer.{AppendsBeginning, RefusesPast, RefusesUtf8};

use markdown::{RunError, SIZE_MAX, Watched};
use markdown_compile_options::Options;
use markdown_options::Tables;
use std::alloc::Allocator;
use std::io::{Read, Write};

/// `markdown::run`: nothing is written before the whole page is made.
pub fn run<A: Allocator + Clone, R: Read, W: Write, T: Tables>(
    alloc: A,
    reader: &mut Watched<R>,
    writer: &mut Watched<W>,
    options: &Options,
    tables: &T,
) -> Result<(), RunError>
    requires without_mdx { HasNoMdx options.now }
    requires reader { has_failed reader.old ≡ false }
    requires writer { has_failed writer.old ≡ false }

    // All of the page was written, and nothing else.
    ensures ok { OnOk result (IfSome (R.remaining (device reader.old)) (λ text.
        let page = html (tables_by T.Tables tables.now) text options.now in
        Appends (W.contents (device writer.old)) (W.contents (device writer.new)) page)) }

    // `Read` is returned exactly if the reader failed, `Write` or `Stopped` exactly if the writer
    // did, and `Stopped` exactly if it took no byte.
    ensures read { has_failed reader.new ≡ read_failed result }
    ensures write { has_failed writer.new ≡ write_failed result }
    ensures stopped { has_stopped writer.new ≡ (has_stopped writer.old || write_stopped result) }

    // The writer isn't flushed.
    ensures unflushed { has_flushed writer.old ≡ false → has_flushed writer.new ≡ false }
    ensures flush_failed { has_flush_failed writer.new ≡ has_flush_failed writer.old }

    // With `Write` and `Stopped` a beginning of the page was written, with any other error nothing.
    ensures beginning { IfErr result (λ e. is_write_error e ≡ true → IfSome (R.remaining (device reader.old)) (λ text.
        let page = html (tables_by T.Tables tables.now) text options.now in
        AppendsBeginning (W.contents (device writer.old)) (W.contents (device writer.new)) page)) }
    ensures nothing { IfErr result (λ e. is_write_error e ≡ false → Keeps (W.contents (device writer.old)) (W.contents (device writer.new))) }

    // `Size` is returned exactly if more than `SIZE_MAX` bytes were read. The reader has ended,
    // unless the error is `Size`, `Read` or `Memory`.
    ensures size { RefusesPast SIZE_MAX (R.remaining (device reader.old)) (R.remaining (device reader.new)) (size_failed result) }
    ensures end { IsTrue (reads_all result) → has_ended reader.new ≡ true }

    // If all was read, `Utf8` is returned exactly if it isn't UTF-8.
    ensures utf8 { IsTrue (reads_all result || came_to_end reader.old reader.new)
        → IfSome (R.remaining (device reader.old)) (λ text. RefusesUtf8 text (utf8_failed result)) }
{
    markdown::run(alloc, reader, writer, options, tables)
}
