//! Answers as they are written. The digests are those of `hashlib`.

use answers::{Standing, Style, TextForm, conviction_text, shown_of, standings_text};
use authenticators::NodeId;
use evidence_set::Indication;
use std::alloc::Global;
use std::collections::BTreeMap;
use std::test::Fail;

/// What is shown of a text, in a style.
fn shown(alloc: Global, text: &[u8], style: Style) -> Result<Vec<u8>, Fail> {
    let shown = shown_of(alloc, text)?;
    let written = shown.write(alloc, style)?;
    Ok(written)
}

#[test]
fn texts_are_shown(rt: HostRuntime) -> Result<(), Fail> {
    let texts: [(&[u8], &str, &str); 4] = [
        (
            b"",
            "form: unknown\nbytes: 0\nSHA-256: e3b0c44298fc1c149afbf4c8996fb92427ae41e4649b934ca495991b7852b855\n",
            "{\"form\":\"unknown\",\"bytes\":0,\"sha256\":\"e3b0c44298fc1c149afbf4c8996fb92427ae41e4649b934ca495991b7852b855\"}\n",
        ),
        (
            b"PRDIREC2\0\0\0\0",
            "form: directory\nbytes: 12\nSHA-256: cb5782b6e4a1735b17de2bb1a8f9b265b551ebc1ebf0a6726036c92377bf6517\n",
            "{\"form\":\"directory\",\"bytes\":12,\"sha256\":\"cb5782b6e4a1735b17de2bb1a8f9b265b551ebc1ebf0a6726036c92377bf6517\",\"keys\":[]}\n",
        ),
        (
            b"PRSTORE2\0\0\0\0\0\0\0",
            "form: store\nbytes: 15\nSHA-256: 3cccdfecbb49e67f2e1171f4e563919e5cc1476a4009ef199f968a5710fc2594\ncan't be read: refused 40 Truncated\nitems before it: 0\n",
            "{\"form\":\"store\",\"bytes\":15,\"sha256\":\"3cccdfecbb49e67f2e1171f4e563919e5cc1476a4009ef199f968a5710fc2594\",\"refused\":40,\"name\":\"Truncated\",\"items_before\":0}\n",
        ),
        (
            b"PRPACK01\0\0\0\0\0\0\0\0",
            "form: pack\nbytes: 16\nSHA-256: acd27c7ed90c4e2696beec8a0d1d196801ed657cf0ebf60adf2c78b3bda8ee72\nitems: 0\nsigned statements: 0\nsegments: 0\naudit challenges: 0\nsend challenges: 0\nacknowledgements: 0\n",
            "{\"form\":\"pack\",\"bytes\":16,\"sha256\":\"acd27c7ed90c4e2696beec8a0d1d196801ed657cf0ebf60adf2c78b3bda8ee72\",\"items\":0,\"statements\":0,\"segments\":0,\"audit_challenges\":0,\"send_challenges\":0,\"acknowledgements\":0,\"nodes\":[]}\n",
        ),
    ];
    for (text, lines, json) in texts {
        let told = shown(rt.alloc(), text, Style::Lines)?;
        assert!(rt; told.as_slice() == lines.as_bytes());
        let told = shown(rt.alloc(), text, Style::Json)?;
        assert!(rt; told.as_slice() == json.as_bytes());
    }
    Ok(())
}

#[test]
fn forms_are_known(rt: HostRuntime) {
    let forms = [
        (TextForm::known(b"PRSTORE1"), "store"),
        (TextForm::known(b"PRSUMM02"), "summary"),
        (TextForm::known(b"PROUTL01"), "outline"),
        (TextForm::known(b"PRDIRECT"), "directory"),
        (TextForm::known(b"PRSTORE"), "unknown"),
    ];
    for (form, name) in forms {
        assert!(rt; form.name() == name);
    }
}

/// What is said of a node.
fn standing(indication: Indication, known: bool) -> Standing {
    Standing { indication, known }
}

/// What is said of four nodes under a program and a directory, in a style.
fn standings(alloc: Global, style: Style) -> Result<Vec<u8>, Fail> {
    let mut standings = BTreeMap::new(alloc);
    standings.insert(7, standing(Indication::Exposed, true))?;
    standings.insert(1, standing(Indication::Trusted, true))?;
    standings.insert(2, standing(Indication::Suspected, true))?;
    standings.insert(3, standing(Indication::Trusted, false))?;
    let text = standings_text(alloc, style, b"tally", b"PRDIREC2\0\0\0\0", &standings)?;
    Ok(text)
}

#[test]
fn standings_are_written(rt: HostRuntime) -> Result<(), Fail> {
    let lines = standings(rt.alloc(), Style::Lines)?;
    let json = standings(rt.alloc(), Style::Json)?;
    let wanted =
        "{\"program\":\"tally\",\"directory\":\"cb5782b6e4a1735b17de2bb1a8f9b265b551ebc1ebf0a6726036c92377bf6517\",\"nodes\":[{\"node\":1,\"indication\":\"trusted\",\"known\":true},{\"node\":2,\"indication\":\"suspected\",\"known\":true},{\"node\":3,\"indication\":\"trusted\",\"known\":false},{\"node\":7,\"indication\":\"exposed\",\"known\":true}]}\n";
    assert!(rt; lines.as_slice() == b"1 trusted\n2 suspected\n3 trusted\n7 exposed\n".as_slice());
    assert!(rt; json.as_slice() == wanted.as_bytes());
    Ok(())
}

#[test]
fn convictions_are_written(rt: HostRuntime) -> Result<(), Fail> {
    let text = b"PRDIREC2\0\0\0\0";
    let lines = conviction_text(rt.alloc(), Style::Lines, NodeId(2), b"tally", text)?;
    let json = conviction_text(rt.alloc(), Style::Json, NodeId(2), b"tally", text)?;
    assert!(rt;
        lines.as_slice()
            == b"exposes 2\nprogram tally\ndirectory cb5782b6e4a1735b17de2bb1a8f9b265b551ebc1ebf0a6726036c92377bf6517\n".as_slice()
    );
    assert!(rt;
        json.as_slice()
            == b"{\"exposes\":2,\"program\":\"tally\",\"directory\":\"cb5782b6e4a1735b17de2bb1a8f9b265b551ebc1ebf0a6726036c92377bf6517\"}\n".as_slice()
    );
    Ok(())
}
