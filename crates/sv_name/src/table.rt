//! Tables of names.
ghost use Rattle.std.specs.Prelude.{◌≡◌, ◌<◌, length, map};
ghost use Rattle.sv_mask.specs.Names.{named, text_at};

/// The value in the first row that has this text.
pub(crate) fn look_up<T: Copy>(rows: &[(&str, T)], text: &str) -> Option<T>
    ensures { result ≡ named (map (λ row. (row.0.now, row.1)) rows.now) text.now }
{
    for row in rows {
        if text == row.0 {
            return Some(row.1);
        }
    }
    None
}

/// The text in the row at this place.
pub(crate) fn text_at<T: Copy>(rows: &'static [(&'static str, T)], place: usize) -> &'static str
    requires { place < length rows.now }
    ensures { result.now ≡ text_at (map (λ row. (row.0.now, row.1)) rows.now) place }
{
    rows[place].0
}
