// What is true of every piece.
ghost use Rattle.std.specs.Prelude.{◌≡◌, ◌≢◌, ℕ, List};
ghost use Rattle.csv.specs.Reading.{AreRecords, default_config, strip_bom};
ghost use Rattle.csv.specs.declared.parser.State.TheVariants.{StartRecord};
ghost use Rattle.event_log.specs.Log.{records_of, AreRows, IsLogFault};
ghost use Rattle.event_log.specs.declared.errors.LogError.{LogError};
ghost use Rattle.event_log.specs.declared.errors.LogError.TheVariants.{Memory};
ghost use Rattle.event_log.specs.declared.row.Row.{Row};

/// A law, which does nothing when it runs: whatever memory there is, a piece has one answer. Its rows are one list, or it
/// has one fault; and its records are the one list that `csv` reads in turn.
pub fn log_answers_are_one()
    ensures records { (piece : List ℕ) (given : List (List (List ℕ))) → AreRecords default_config StartRecord (strip_bom piece) given → records_of piece ≡ given }
    ensures rows { (piece : List ℕ) (a : List Row) (b : List Row) → AreRows (records_of piece) a → AreRows (records_of piece) b → a ≡ b }
    ensures fault { (piece : List ℕ) (e : LogError) (f : LogError) → IsLogFault piece e → IsLogFault piece f → e ≢ Memory → f ≢ Memory → e ≡ f }
    ensures either { (piece : List ℕ) (rows : List Row) (e : LogError) → AreRows (records_of piece) rows → IsLogFault piece e → e ≡ Memory }
{}
