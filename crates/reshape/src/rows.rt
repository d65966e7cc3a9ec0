//! Worked rows of the definitions, as functions with nothing to run.
ghost use Rattle.reshape.specs.rows.Eliminations.{UserGoes, CallStays};

/// What the elimination of a determined variable makes.
pub fn worked_rows()
    ensures user_goes { UserGoes }
    ensures call_stays { CallStays }
{}
