//! Contents, whose lines stand after the prefixes of containers (CommonMark 4.8).
ghost use Rattle.std.specs.Prelude.{◌≡◌, ◌<◌, ◌++◌, ◌^◌, List, OnOk, false, length, true, ℕ};
ghost use Rattle.markdown_options.specs.LineEndings.{ending_bytes};
ghost use Rattle.markdown_options.specs.declared.line_ending.LineEnding.{LineEnding};
ghost use Rattle.engine_events.specs.Names.{same_name};
ghost use Rattle.engine_events.specs.declared.event.Name.TheVariants.{BlockQuotePrefix, Data};
ghost use Rattle.event_tokens.specs.Tokens.{is_token};
ghost use Rattle.parse_output.specs.Children.{holds_lines, may_enter};
ghost use Rattle.parse_output.specs.Ends.{end_at};
ghost use Rattle.parse_output.specs.Forest.{data_nodes, void_nodes};
ghost use Rattle.parse_output.specs.Written.{end_in};
ghost use Rattle.parse_lines.specs.Content.{BeginsLineAfter, BeginsLineHere, HasBytes, StandsInLine, WritesInLine, content_end_in, end_after};
ghost use Rattle.parse_lines.specs.InContent.{BeginsContent, IsApart, StandsInContent, Stop, WritesEndingIn};
ghost use Rattle.parse_lines.specs.Open.{still_open};
ghost use Rattle.parse_lines.specs.Standing.{standing};
ghost use Rattle.parse_lines.specs.Steps.{HasSameOpen};

use crate::walk::Walk;
use engine_events::event::Name;
use parse_output::{End, at};
use std::alloc::{AllocError, Allocator};

impl<'a, A: Allocator> Walk<'a, A> {
    /// A content begins, whose first line is the rest of the line.
    pub fn begin_content(&mut self)
        ensures open { still_open self.new ≡ still_open self.old }
        ensures stays { standing self.new ≡ standing self.old }
        ensures begun { BeginsContent self.old self.new }
    {
        self.place = 0;
        self.line_place = 0;
        self.line_start = self.start_of(&self.rest);
    }

    /// A content begins, which is a part of the line, from an index on.
    pub fn begin_part(&mut self, index: usize)
        ensures open { still_open self.new ≡ still_open self.old }
        ensures stays { standing self.new ≡ standing self.old }
        ensures begun { end_in self.old.out ≡ end_at index 0 → BeginsLineHere self.old self.new }
        ensures begins { (self.new.place ≡ 0) × (self.new.out ≡ self.old.out) }
    {
        self.place = 0;
        self.line_place = 0;
        self.line_start = at(index);
    }

    /// A content begins here, which is a part of the line.
    pub fn begin_here(&mut self)
        ensures open { still_open self.new ≡ still_open self.old }
        ensures stays { standing self.new ≡ standing self.old }
        ensures begun { BeginsLineHere self.old self.new }
        ensures begins { (self.new.place ≡ 0) × (self.new.out ≡ self.old.out) }
    {
        self.place = 0;
        self.line_place = 0;
        self.line_start = self.out.end();
    }

    /// A content begins here, which is a part of the line, after so many columns of it that are written.
    pub fn begin_after(&mut self, columns: u8)
        ensures open { still_open self.new ≡ still_open self.old }
        ensures stays { standing self.new ≡ standing self.old }
        ensures begun { BeginsLineAfter columns self.old self.new }
        ensures begins { (self.new.place ≡ columns) × (self.new.out ≡ self.old.out) }
    {
        self.place = usize::from(columns);
        self.line_place = usize::from(columns);
        self.line_start = self.out.end();
    }

    /// How far the content is written.
    pub fn place(&self) -> usize
        ensures { result ≡ self.now.place }
    {
        self.place
    }

    /// The next bytes of the content, so many, by a name.
    pub fn text(&mut self, name: Name, size: usize) -> Result<(), AllocError>
        requires child { may_enter (still_open self.old) name ≡ true }
        ensures open { OnOk result (still_open self.new ≡ still_open self.old) }
        ensures stays { OnOk result (standing self.new ≡ standing self.old) }
        ensures written { OnOk result ((text front line : List ℕ) → size ≡ length front → same_name name BlockQuotePrefix ≡ false
            → StandsInLine text (front ++ line) self.old → HasBytes text name size self.old
            → WritesInLine text front (void_nodes text name (end_in self.old.out) (end_after (end_in self.old.out) size)) line self.old self.new) }
    {
        self.place = self.place.saturating_add(size);
        let end = self.content_end();
        self.out.token(name, end)
    }

    /// The next bytes of the content, so many, as data.
    pub fn data(&mut self, size: usize) -> Result<(), AllocError>
        requires child { may_enter (still_open self.old) Data ≡ true }
        ensures open { OnOk result (still_open self.new ≡ still_open self.old) }
        ensures stays { OnOk result (standing self.new ≡ standing self.old) }
        ensures written { OnOk result ((text front line : List ℕ) → size ≡ length front → StandsInLine text (front ++ line) self.old
            → HasBytes text Data size self.old
            → WritesInLine text front (data_nodes text (end_in self.old.out) (end_after (end_in self.old.out) size)) line self.old self.new) }
    {
        if size == 0 {
            return Ok(());
        }
        self.place = self.place.saturating_add(size);
        let end = self.content_end();
        self.out.data(end)
    }

    /// The ending of the line by a name, of so many bytes, and the prefixes of the next line.
    pub fn content_ending(&mut self, name: Name, size: usize) -> Result<(), AllocError>
        requires child { may_enter (still_open self.old) name ≡ true }
        requires lines { holds_lines (still_open self.old) ≡ true }
        ensures open { OnOk result (still_open self.new ≡ still_open self.old) }
        ensures around { OnOk result (HasSameOpen (standing self.old) (standing self.new)) }
        ensures written { OnOk result ((text content : List ℕ) (stop : Stop) (ending : LineEnding) → size ≡ length (ending_bytes ending)
            → IsApart ending content → same_name name Data ≡ false → same_name name BlockQuotePrefix ≡ false
            → is_token name (ending_bytes ending) ≡ true → StandsInContent text (ending_bytes ending ++ content) stop self.old
            → WritesEndingIn text name ending content stop self.old self.new) }
    {
        let place = self.place.saturating_add(size);
        self.ending(name)?;
        self.begin_line()?;
        self.place = place;
        self.line_place = place;
        self.line_start = self.start_of(&self.rest);
        Ok(())
    }

    /// The place in the text up to which the content is written.
    fn content_end(&self) -> End
        ensures { (content_end_in self.now).index < 2 ^ 61 → result ≡ content_end_in self.now }
    {
        let more = self.place.saturating_sub(self.line_place);
        let owed = usize::from(self.line_start.owed);
        if more < owed {
            End {
                index: self.line_start.index,
                owed: self.line_start.owed.saturating_sub(more as u8),
            }
        } else if owed > 0 {
            at(self.line_start.index)
                .after(1)
                .after(more.saturating_sub(owed))
        } else {
            at(self.line_start.index).after(more)
        }
    }
}
