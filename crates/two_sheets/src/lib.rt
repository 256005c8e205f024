// Both sheets read, each into its half of the table.
#![tactic(auto)]

ghost use Rattle.std.specs.Prelude.{◌≡◌, length};
ghost use Rattle.two_sheets.specs.TwoSheets.{refusal, SheetsRead};

use answer::Answer;
use reading::read_sheet;
use table::HALF;

// The numbers of the two sheets' types, each in its half of the table.
#[derive(Clone, Copy)]
pub struct TypeNumbers {
    pub source: usize,
    pub destination: usize,
}

// The first faulty line of the first faulty sheet.
#[derive(Clone, Copy)]
pub enum SheetFault {
    Source(u32),
    Destination(u32),
}

impl From<SheetFault> for Answer {
    ghost from_gives = { λ fault answer. answer ≡ refusal fault };

    fn from(fault: SheetFault) -> Answer {
        match fault {
            SheetFault::Source(line) => Answer::Source(line),
            SheetFault::Destination(line) => Answer::Destination(line),
        }
    }
}

// Two sheets read into the table: the numbers of their types there.
pub fn read_sheets(
    source_sheet: &[u8],
    destination_sheet: &[u8],
    table: &mut [u32],
) -> Result<TypeNumbers, SheetFault>
    requires { length table.old ≡ 8192 }
    ensures { SheetsRead source_sheet.now destination_sheet.now table.new result }
{
    let source = read_sheet(source_sheet, &mut table[..HALF]).map_err(|fault| SheetFault::Source(
        fault.0,
    ))?;
    let destination = read_sheet(destination_sheet, &mut table[HALF..]).map_err(
        |fault| SheetFault::Destination(fault.0),
    )?;
    Ok(TypeNumbers {
        source: (source.types - 1) as usize,
        destination: (destination.types - 1) as usize,
    })
}
