//! Reads the items of a recording from a source, one after the other.

ghost use Rattle.recording.specs.tools.ReaderSteps.{FindsFirst, FindsNext};

use crate::fault::RecordingFault;
use crate::held::HeldBytes;
use crate::item::Item;
use crate::item_fault::ItemFault;
use crate::limits::MAX_ITEMS;
use crate::read::{FIRST_LINE, LAST_LINE, Stop, moment_after, read_first, read_item};
use hms_io::Source;
use std::alloc::Global;
use std::marker::Model;

/// How many bytes are asked of a source at once.
pub const MAX_PIECE_BYTES: usize = 4_096;

/// How far a recording was read.
#[derive(Clone, Copy, PartialEq, Eq)]
pub enum ReaderStage {
    /// Not to its first item.
    Begin,
    /// To an item.
    Items,
    /// To its last line.
    LastLine,
    /// To the end of the source, which comes after the last line.
    End,
    /// No further, for this reason.
    Refused(ItemFault),
}

/// An item that was found.
#[derive(Clone, Copy)]
struct FoundItem {
    /// How many bytes come before its line: those of the line that names the format, or none.
    skipped: usize,
    /// How many bytes it has, its line among them.
    len: usize,
    /// The last moment after it.
    moment: u64,
}

/// Reads a recording from a source, item by item, however the source cuts it. It keeps the bytes of
/// one item and of one piece of the source at most, and goes over the line of an item alone, so its
/// time is in proportion to what it reads, also where each piece is one byte.
///
/// A contract sees how many bytes the source gave, those of them that are in no item that was read,
/// how many are kept, the last item, the last moment, how many items there were, and how far it
/// came.
#[derive(Drop)]
pub struct ItemReader {
    // The bytes of the item that was read last, and those after it; what was used before them is
    // kept until a piece is taken.
    bytes: HeldBytes,
    // How many of them the item has; none where there is no item.
    item_len: usize,
    // How many bytes came before.
    offset: u64,
    // The last moment before the item.
    before: u64,
    // The last moment.
    moment: u64,
    count: usize,
    stage: ReaderStage,
}

impl Model for ItemReader {
    ghost use Rattle.std.specs.Prelude.{◌+◌, drop, length};
    ghost use Rattle.recording.specs.Readers.{ReaderState};
    ghost use Rattle.recording.specs.tools.ReaderViews.{IsItemHeld, item_at};

    ghost Value = { ReaderState };

    ghost view = { λ r. record {
      given = r.offset + length r.bytes.unused;
      held = drop r.item_len r.bytes.unused;
      kept = length r.bytes.all;
      item = item_at r.item_len r.offset r.before r.bytes.unused;
      moment = r.moment;
      count = r.count;
      stage = r.stage;
    } };

    ghost invariant = { λ r. IsItemHeld r.item_len r.offset r.before r.moment r.count r.stage
        r.bytes };
}

/// The first item of a recording, which is a moment, after the line that names the format; nothing
/// where more bytes may make them.
fn find_first(bytes: &[u8]) -> Result<Option<FoundItem>, Stop>
    ensures { FindsFirst bytes.now result }
{
    match read_first(bytes) {
        Ok((moment, rest)) => Ok(Some(FoundItem {
            skipped: FIRST_LINE.len(),
            len: bytes.len() - FIRST_LINE.len() - rest.len(),
            moment,
        })),
        Err(Stop::Left(0)) => Ok(None),
        Err(stop) => Err(stop),
    }
}

/// What comes after an item.
#[derive(Clone, Copy)]
enum Next {
    /// This item.
    Item(FoundItem),
    /// The last line.
    LastLine,
    /// More bytes are needed.
    More,
}

/// What comes next after this moment.
fn find_next(last: u64, bytes: &[u8]) -> Result<Next, Stop>
    ensures { FindsNext last bytes.now result }
{
    match read_item(last, bytes) {
        Ok((Some(body), rest)) => Ok(Next::Item(FoundItem {
            skipped: 0,
            len: bytes.len() - rest.len(),
            moment: moment_after(last, body),
        })),
        Ok((None, _)) => Ok(Next::LastLine),
        Err(Stop::Left(0)) => Ok(Next::More),
        Err(stop) => Err(stop),
    }
}

impl ItemReader {
    ghost use Rattle.std.specs.Prelude.{◌≡◌, ◌≤◌, ◌+◌, ℕ, List, Ok, Err, Some, None, length, IfErr, IfOk, IsSome, IsTrue, MatchResult, false, true};
    ghost use Rattle.std.specs.Io.KnownBytes.{Consumes};
    ghost use Rattle.recording.specs.Items.{PlacedItem, placed};
    ghost use Rattle.recording.specs.Readers.{CountsFault, ReadsNext, ReadsNeeded, AnswersNext, idle_reads, nothing_read, size_held};
    ghost use Rattle.recording.specs.tools.NextItems.{bytes_left};
    ghost use Rattle.recording.specs.tools.ReaderSteps.{IsFound, IsSkipped, IsGoing, IsWaiting, IsReading, IsFew, IsAnEnd, Reaches, ReadsHeld, FindsNothing, GoesOver, AnswersEnd, TakesPiece, CountsRead, answered, fault_at};
    ghost use Rattle.recording.specs.declared.item_fault.ItemFault.{ItemFault};
    ghost use Rattle.recording.specs.declared.limits.TheConstants.{MAX_ITEM_BYTES, MAX_ITEMS};
    ghost use Rattle.recording.specs.declared.reader.ReaderStage.{ReaderStage};
    ghost use Rattle.recording.specs.declared.reader.TheConstants.{MAX_PIECE_BYTES};

    /// A reader that has read nothing. It takes no memory.
    pub fn new(alloc: Global) -> ItemReader
        ensures { result ≡ nothing_read }
    {
        ItemReader {
            bytes: HeldBytes::new(alloc),
            item_len: 0,
            offset: 0,
            before: 0,
            moment: 0,
            count: 0,
            stage: ReaderStage::Begin,
        }
    }

    /// Reads the next item. It answers whether there is one: after the last one comes the last
    /// line, and then the end of the source.
    ///
    /// The source is read only while what it gave holds neither an item nor a fault. After a fault
    /// each call answers it again.
    pub fn next<S: Source>(&mut self, source: &mut S) -> Result<bool, ItemFault>
        ensures reads { ReadsNext self.old self.new (S.left source.old) (S.left source.new) result }

        // A fault is answered again, and the end too, and the source isn't read then.
        ensures again { (fault : ItemFault) → self.old.stage ≡ ReaderStage.Refused fault
            → (result ≡ Err fault) × (source.new ≡ source.old) }
        ensures end { self.old.stage ≡ ReaderStage.End
            → (result ≡ Ok false) × (source.new ≡ source.old)
            × (self.new.stage ≡ ReaderStage.End) }
        ensures kept { IfErr result (λ fault. self.new.stage ≡ ReaderStage.Refused fault) }

        // It keeps the bytes of one item, with its line, and of one piece at most, used or not;
        // what it holds is among them.
        ensures holds { self.new.kept ≤ MAX_ITEM_BYTES + 32 + MAX_PIECE_BYTES }
        ensures among { size_held self.new ≤ self.new.kept }
        ensures count { IfOk result (λ found. IsTrue found → self.new.count ≡ self.old.count + 1) }
        ensures within { self.new.count ≤ MAX_ITEMS }
        ensures faults { MatchResult result (λ _. S.faults source.new ≡ S.faults source.old)
            (λ fault. CountsFault (S.faults source.old) (S.faults source.new) self.old.stage
            fault) }
        ensures later { S.faults source.old ≤ S.faults source.new }
        ensures ended { S.ended source.old ≡ 0 → S.ended source.new ≤ 1 }

        // Each read gives a byte or ends the call, without an item.
        ensures idle { S.idle source.new ≤ S.idle source.old + idle_reads result }
        ensures unended { IfOk result (λ found. IsTrue found → S.ended source.old ≡ 0
            → S.ended source.new ≡ 0) }
    {
        self.drop_item();
        match self.stage {
            ReaderStage::Refused(fault) => return Err(fault),
            ReaderStage::End => return Ok(false),
            _ => {}
        }
        match self.read_on(source) {
            Ok(found) => Ok(found),
            Err(fault) => {
                self.stage = ReaderStage::Refused(fault);
                Err(fault)
            }
        }
    }

    /// The item that was read last.
    pub fn item(&self) -> Item<'_>
        requires { IsSome self.now.item }
        ensures { Some (placed result) ≡ self.now.item }
    {
        match read_item(self.before, self.bytes.as_slice()) {
            Ok((Some(body), _)) => Item {
                offset: self.offset,
                body,
            },
            // an item was read
            _ => unreachable!(),
        }
    }

    /// How many bytes came up to the end of those that are held.
    fn given(&self) -> u64
        ensures { result ≡ self.now.given }
    {
        self.offset + self.bytes.as_slice().len() as u64
    }

    /// Drops the item that was read last.
    fn drop_item(&mut self)
        ensures drops { self.new ≡ record self.old { item = None } }
        ensures few { IsFew self.new }
    {
        let len = self.item_len;
        self.bytes.use_up(len);
        self.offset += len as u64;
        self.item_len = 0;
    }

    /// The fault where nothing is read.
    fn fault_of(&self, stop: Stop) -> ItemFault
        requires { bytes_left stop ≤ self.now.given }
        ensures { result ≡ ItemFault.Recording (fault_at self.now.given stop) }
    {
        let given = self.given();
        ItemFault::Recording(match stop {
            Stop::Left(left) => RecordingFault::Syntax(given - left as u64),
            Stop::TooLong(left) => RecordingFault::ItemTooLong(given - left as u64),
            Stop::MomentFalls(left) => RecordingFault::MomentFalls(given - left as u64),
        })
    }

    /// Goes on to the item, where it isn't one too many.
    fn reach(&mut self, found: FoundItem) -> Result<bool, ItemFault>
        requires none { self.old.item ≡ None }
        requires found { IsFound self.old.moment self.old.held found }
        requires skipped { IsSkipped self.old.stage found.skipped }
        ensures reaches { Reaches self.old self.new found result }
        ensures few { IsFew self.new }
    {
        if self.count == MAX_ITEMS {
            return Err(ItemFault::TooManyItems);
        }
        self.bytes.use_up(found.skipped);
        self.offset += found.skipped as u64;
        self.item_len = found.len;
        self.before = self.moment;
        self.moment = found.moment;
        self.count += 1;
        self.stage = ReaderStage::Items;
        Ok(true)
    }

    /// Goes on to the first item, where its bytes are there.
    fn reach_first(&mut self) -> Result<bool, ItemFault>
        requires none { self.old.item ≡ None }
        requires begin { self.old.stage ≡ ReaderStage.Begin }
        ensures reads { ReadsHeld self.old self.new result }
        ensures over { GoesOver self.old self.new result }
        ensures few { IsFew self.new }
    {
        match find_first(self.bytes.as_slice()) {
            Ok(Some(found)) => self.reach(found),
            Ok(None) => Ok(false),
            Err(stop) => Err(self.fault_of(stop)),
        }
    }

    /// Goes on to the next item, where its bytes are there, or past the last line, after which
    /// nothing may come.
    fn reach_next(&mut self) -> Result<bool, ItemFault>
        requires none { self.old.item ≡ None }
        requires items { self.old.stage ≡ ReaderStage.Items }
        ensures reads { ReadsHeld self.old self.new result }
        ensures over { GoesOver self.old self.new result }
        ensures few { IsFew self.new }
    {
        match find_next(self.moment, self.bytes.as_slice()) {
            Ok(Next::Item(found)) => self.reach(found),
            Ok(Next::LastLine) => {
                self.bytes.use_up(LAST_LINE.len());
                self.offset += LAST_LINE.len() as u64;
                self.stage = ReaderStage::LastLine;
                self.reach_nothing()
            }
            Ok(Next::More) => Ok(false),
            Err(stop) => Err(self.fault_of(stop)),
        }
    }

    /// After the last line no byte may come.
    fn reach_nothing(&self) -> Result<bool, ItemFault>
        requires { self.now.item ≡ None }
        ensures { FindsNothing self.now result }
    {
        if self.bytes.as_slice().is_empty() {
            Ok(false)
        } else {
            Err(ItemFault::Recording(RecordingFault::Syntax(self.offset)))
        }
    }

    /// Goes on as far as the bytes that are held do, to an item at most. It answers whether there
    /// is one.
    fn reach_held(&mut self) -> Result<bool, ItemFault>
        requires none { self.old.item ≡ None }
        requires going { IsGoing self.old.stage }
        ensures reads { ReadsHeld self.old self.new result }
        ensures over { GoesOver self.old self.new result }
        ensures few { IsFew self.new }
    {
        match self.stage {
            ReaderStage::Begin => self.reach_first(),
            ReaderStage::Items => self.reach_next(),
            ReaderStage::LastLine => self.reach_nothing(),
            // the reader goes on
            _ => unreachable!(),
        }
    }

    /// Takes a piece of the source. It answers whether one came.
    fn take_piece<S: Source>(&mut self, source: &mut S) -> Result<bool, ItemFault>
        requires none { self.old.item ≡ None }
        requires short { length self.old.held ≤ MAX_ITEM_BYTES + 32 }
        requires few { IsFew self.old }
        ensures takes { (piece : List ℕ) × Consumes (S.left source.old) (S.left source.new) piece
            × (length piece ≤ MAX_PIECE_BYTES)
            × TakesPiece self.old self.new piece (S.left source.new) result }
        ensures few { IsFew self.new }
        ensures faults { CountsRead (S.faults source.old) (S.faults source.new) result }
        ensures later { S.faults source.old ≤ S.faults source.new }
        ensures ended { S.ended source.old ≡ 0 → S.ended source.new ≤ 1 }
        ensures idle { S.idle source.new ≤ S.idle source.old + idle_reads result }
        ensures unended { result ≡ Ok true → S.ended source.old ≡ 0 → S.ended source.new ≡ 0 }
    {
        let mut piece = [0u8; MAX_PIECE_BYTES];
        let count = source.read(&mut piece)?;
        if count == 0 {
            return Ok(false);
        }
        self.bytes.append(&piece[..count])?;
        Ok(true)
    }

    /// After the last line the source ends, and nowhere else.
    fn reach_end(&mut self) -> Result<bool, ItemFault>
        requires none { self.old.item ≡ None }
        requires waits { IsWaiting self.old.stage self.old.moment self.old.held }
        ensures ends { (items : List PlacedItem) (text : List ℕ) → IsReading self.old items text
            → AnswersEnd items text self.new result }
        ensures kind { IsAnEnd result }
        ensures few { IsFew self.new }
    {
        match self.stage {
            ReaderStage::LastLine => {
                self.stage = ReaderStage::End;
                Ok(false)
            }
            _ => Err(ItemFault::Recording(RecordingFault::Syntax(self.given()))),
        }
    }

    /// Goes on to the next item, or to the end.
    fn read_on<S: Source>(&mut self, source: &mut S) -> Result<bool, ItemFault>
        requires none { self.old.item ≡ None }
        requires going { IsGoing self.old.stage }
        ensures reads { (items : List PlacedItem) (text : List ℕ) → IsReading self.old items text
            → (more : List ℕ)
            × ReadsNeeded (S.left source.old) (S.left source.new) items text more
            × AnswersNext items text more (S.left source.new) (answered self.new result) result }
        ensures count { IfOk result (λ found. IsTrue found → self.new.count ≡ self.old.count + 1) }
        ensures few { IsFew self.new }
        ensures faults { CountsRead (S.faults source.old) (S.faults source.new) result }
        ensures later { S.faults source.old ≤ S.faults source.new }
        ensures ended { S.ended source.old ≡ 0 → S.ended source.new ≤ 1 }
        ensures idle { S.idle source.new ≤ S.idle source.old + idle_reads result }
        ensures unended { result ≡ Ok true → S.ended source.old ≡ 0 → S.ended source.new ≡ 0 }
    {
        'pieces: while !self.reach_held()? {
            if !self.take_piece(source)? {
                return self.reach_end();
            }
        }
        Ok(true)
    }
}
