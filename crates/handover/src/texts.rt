// What is hashed for the handover keys of source document 003, sections 4.2, 4.3 and 5 (document 02, request 2): the text that the first iteration of
// the KDF hands to HMAC-SHA-1 for an R0-Key and for an R1-Key. The identifiers are put in place from the last to the first.
ghost use Rattle.std.specs.Prelude.{◌≡◌, length};
ghost use Rattle.handover_rules.specs.Handover.{r0_input, r1_input};

// The text of an R0-Key: 1 in two bytes, the label, a zero byte, AD-ID, SPA, and 256 in two bytes.
pub(crate) fn r0_text(ad_id: &[u8], spa: &[u8]) -> [u8; 44]
    requires ad_len { length ad_id.now ≡ 16 }
    requires spa_len { length spa.now ≡ 6 }
    ensures { result ≡ r0_input ad_id.now spa.now 1 }
{
    let mut text = [0; 44];
    slices::copy(b"\x01\x00R0 Key derivation\x00", &mut text);
    text[43] = 1;
    slices::copy_at(spa, 36, &mut text);
    slices::copy_at(ad_id, 20, &mut text);
    text
}

// The text of an R1-Key, whose identifiers are AD-ID, AN-ID and SPA.
pub(crate) fn r1_text(ad_id: &[u8], an_id: &[u8], spa: &[u8]) -> [u8; 60]
    requires ad_len { length ad_id.now ≡ 16 }
    requires an_len { length an_id.now ≡ 16 }
    requires spa_len { length spa.now ≡ 6 }
    ensures { result ≡ r1_input ad_id.now an_id.now spa.now 1 }
{
    let mut text = [0; 60];
    slices::copy(b"\x01\x00R1 Key derivation\x00", &mut text);
    text[59] = 1;
    slices::copy_at(spa, 52, &mut text);
    slices::copy_at(an_id, 36, &mut text);
    slices::copy_at(ad_id, 20, &mut text);
    text
}
