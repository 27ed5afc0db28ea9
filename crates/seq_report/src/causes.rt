ghost use Rattle.std.specs.Prelude.{◌≡◌};
ghost use Rattle.seq_report.specs.Report.{cause_of};

use hydrostat::Outside;

/// The word of a line for the table outside of which a condition lies.
pub fn cause_word(outside: Outside) -> &'static str
    ensures { result.now ≡ cause_of outside }
{
    match outside {
        Outside::Hydro => "HYDRO",
        Outside::Levers => "LEVERS",
        Outside::Bonjean => "BONJEAN",
        Outside::Closing => "CLOSING",
        Outside::GmLimit => "GMLIMIT",
    }
}
