// What these tests share.
use std::test::Fail;

/// Appends what is told, with `;` after it.
pub fn tell(out: &mut String, told: &str) -> Result<(), Fail> {
    out.push_str(told)?;
    Ok(out.push(';')?)
}
