// The C function of the listing (include/cenguatu.h), as an archive, which is a crate: it calls the one of crate `listing`.
#![tactic(auto)]

ghost use Rattle.std.specs.Prelude.{◌≡◌, not, eqb, length};
ghost use Rattle.texts.specs.Page.{written_as, page_as, number};
ghost use Rattle.listing.specs.Listing.{listing};

// What hosts call: warnings are off for 0 and on for any other number.
#[unsafe(no_mangle)]
pub extern "C" fn cenguatu_listing(sheet: &[u8], page: &mut [u8], warnings: u32) -> u32
    ensures { (result ≡ number (written_as (listing (not (eqb warnings 0)) sheet.now) (length page.old))) × (page.new ≡ page_as (listing (not (eqb warnings 0)) sheet.now) page.old) }
{
    listing::cenguatu_listing(sheet, page, warnings)
}
