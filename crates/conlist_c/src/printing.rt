// Sheet bytes to text bytes.
ghost use Rattle.sheet_list.specs.Printing.{TextInto};

// Prints as `list_sheet` does: how many bytes of text there are.
#[unsafe(no_mangle)]
pub extern "C" fn conlist_list_sheet(sheet: &[u8], limit: u64, text: &mut [u8]) -> usize
    ensures { TextInto limit sheet.now text.old result text.new }
{
    sheet_list::list_sheet(sheet, limit, text)
}
