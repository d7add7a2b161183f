//! The log of a store, page by page.
ghost use Rattle.std.specs.Prelude.{◌≡◌, ◌<◌, ◌≤◌, ◌^◌, ◌*◌, ◌↔◌, count_by, IfOk, IfErr};
ghost use Rattle.fkv_disk.specs.Kinds.{OnlyReads};
ghost use Rattle.fkv_disk.specs.Quiet.{IsQuiet, IsHindrance};
ghost use Rattle.fkv_looking.specs.Classes.{is_class};
ghost use Rattle.fkv_looking.specs.Pages.{AreClasses, IsPageLook, ArePages};

use crate::classes::{RecordClass, class_at};
use fkv_base::{Addr, Fault};
use fkv_disk::Device;
use fkv_opening::Opened;
use std::alloc::Global;

/// A page of the log: what stands at its addresses, as far as the commit's log goes.
#[derive(Clone, Copy)]
pub struct PageLook {
    /// The page's first address; 1 in the first page, since no record has address 0.
    pub first: Addr,
    /// Where the page ends, or the log in it.
    pub end: Addr,
    /// Valid records that are neither lost nor newer than the commit.
    pub valid: u64,
    /// Records that are marked as invalid.
    pub invalid: u64,
    /// Valid records of the scan that lost ranges have.
    pub lost: u64,
    /// Valid records that are newer than the commit.
    pub newer: u64,
    /// Addresses at which no record stands.
    pub no_record: u64,
}

/// What stands at the addresses from one on and below another.
fn classes_in<D: Device>(
    alloc: Global,
    d: &mut D,
    opened: &Opened,
    first: Addr,
    end: Addr,
) -> Result<Vec<RecordClass>, Fault>
    requires upwards { first.0 ≤ end.0 }
    requires short { end.0 < 2 ^ 48 }
    ensures ok { D.honest d.old → IfOk result (λ classes. AreClasses (D.seen d.old) opened.now first.0 end.0 classes.items) }
    ensures err { IfErr result (IsHindrance (D.failed d.old) (D.failed d.new)) }
    ensures quiet { IsQuiet D.honest D.seen D.may_leave D.moment D.left_since D.failed d.old d.new }
    ensures reads { OnlyReads D.refuses D.expects d.old d.new }
{
    let mut classes = Vec::new(alloc);
    for addr in first.0..end.0 {
        let class = class_at(d, opened, Addr(addr))?;
        classes.push(class)?;
    }
    Ok(classes)
}

/// How many are of this class.
fn count(classes: &[RecordClass], class: RecordClass) -> u64
    ensures { result ≡ count_by (is_class class) classes.now }
{
    let mut count = 0;
    for found in classes {
        if found.is(class) {
            count += 1;
        }
    }
    count
}

/// What the page of this number holds, the first one being page 0.
fn page_look<D: Device>(
    alloc: Global,
    d: &mut D,
    opened: &Opened,
    page: u64,
) -> Result<PageLook, Fault>
    requires { page * opened.now.shape.page < opened.now.tail.0 }
    ensures ok { D.honest d.old → IfOk result (IsPageLook (D.seen d.old) opened.now page) }
    ensures err { IfErr result (IsHindrance (D.failed d.old) (D.failed d.new)) }
    ensures quiet { IsQuiet D.honest D.seen D.may_leave D.moment D.left_since D.failed d.old d.new }
    ensures reads { OnlyReads D.refuses D.expects d.old d.new }
{
    let start = page * opened.shape.page;
    let first = Addr(start.max(1));
    let end = Addr((start + opened.shape.page).min(opened.tail.0));
    let classes = classes_in(alloc, d, opened, first, end)?;
    Ok(PageLook {
        first,
        end,
        valid: count(&classes, RecordClass::Valid),
        invalid: count(&classes, RecordClass::Invalid),
        lost: count(&classes, RecordClass::Lost),
        newer: count(&classes, RecordClass::Newer),
        no_record: count(&classes, RecordClass::NoRecord),
    })
}

/// The pages of the log of an opened store, up to the one in which it ends.
pub(crate) fn page_looks<D: Device>(
    alloc: Global,
    d: &mut D,
    opened: &Opened,
) -> Result<Vec<PageLook>, Fault>
    ensures ok { D.honest d.old → IfOk result (λ pages. ArePages (D.seen d.old) opened.now pages.items) }
    ensures err { IfErr result (IsHindrance (D.failed d.old) (D.failed d.new)) }
    ensures quiet { IsQuiet D.honest D.seen D.may_leave D.moment D.left_since D.failed d.old d.new }
    ensures reads { OnlyReads D.refuses D.expects d.old d.new }
{
    let mut pages = Vec::new(alloc);
    let many = (opened.tail.0 - 1) / opened.shape.page + 1;
    for page in 0..many {
        let found = page_look(alloc, d, opened, page)?;
        pages.push(found)?;
    }
    Ok(pages)
}
