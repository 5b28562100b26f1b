//! The labels of a figure.

ghost use Rattle.std.specs.Prelude.{◌≡◌, ◌++◌, OnOk};
ghost use Rattle.std.specs.List.{flat_map};
ghost use Rattle.figures.specs.Labels.{escaped, labels_of};

use std::alloc::AllocError;

/// Adds a byte of a label's value.
fn push_escaped(out: &mut Vec<u8>, byte: u8) -> Result<(), AllocError>
    ensures { OnOk result (out.new.items ≡ out.old.items ++ escaped byte) }
{
    match byte {
        b'\n' => out.extend_from_slice(b"\\n")?,
        b'"' => out.extend_from_slice(b"\\\"")?,
        b'\\' => out.extend_from_slice(b"\\\\")?,
        _ => out.push(byte)?,
    }
    Ok(())
}

/// Adds a label's value without its quotation marks.
fn push_value(out: &mut Vec<u8>, value: &[u8]) -> Result<(), AllocError>
    ensures { OnOk result (out.new.items ≡ out.old.items ++ flat_map escaped value.now) }
{
    for byte in value {
        push_escaped(out, *byte)?;
    }
    Ok(())
}

/// Adds the labels of a network.
pub(crate) fn push_labels(out: &mut Vec<u8>, user: &[u8], network: &[u8]) -> Result<(), AllocError>
    ensures { OnOk result (out.new.items ≡ out.old.items ++ labels_of user.now network.now) }
{
    out.extend_from_slice(b"{user=\"")?;
    push_value(out, user)?;
    out.extend_from_slice(b"\",network=\"")?;
    push_value(out, network)?;
    out.extend_from_slice(b"\"}")?;
    Ok(())
}
