//! Writing a map as its canonical text.

ghost use Rattle.std.specs.Prelude.{◌≡◌, ◌++◌, ◌∷◌, [], codes, IfOk, OnOk};
ghost use Rattle.std.specs.Fmt.{decimal, signed_decimal};
ghost use Rattle.std.specs.List.{flat_map, list_any};
ghost use Rattle.crush_map.specs.Map.{IsMap};
ghost use Rattle.crush_map.specs.crush_types.specs.Kinds.{is_straw2};
ghost use Rattle.crush_writing.specs.Canonical as spec;

use crate::lookup::NamesById;
use crush_map::{
    Bucket, CrushMap, Device, ItemId, Rule, Step, Tunables, TypeName, Weight, straw2_mark,
    weight_text,
};
use std::alloc::{AllocError, Global};

/// Writes each word, with a space before it.
fn write_others(out: &mut Vec<u8>, words: &[&[u8]]) -> Result<(), AllocError>
    ensures { OnOk result (out.new.items ≡ out.old.items ++ flat_map (λ word. 32 ∷ word.now) words.now) }
{
    for word in words {
        out.push(b' ')?;
        out.extend_from_slice(word)?;
    }
    Ok(())
}

/// Writes a line of words.
#[tactic(auto, using(crate::proofs::Joins::two))]
fn write_line(out: &mut Vec<u8>, first: &[u8], others: &[&[u8]]) -> Result<(), AllocError>
    ensures { OnOk result (out.new.items ≡ out.old.items ++ (first.now ++ flat_map (λ word. 32 ∷ word.now) others.now ++ 10 ∷ [])) }
{
    out.extend_from_slice(first)?;
    write_others(out, others)?;
    out.push(b'\n')?;
    Ok(())
}

/// Writes a line of words inside braces, after a tab.
#[tactic(auto, using(crate::proofs::Joins::tab))]
fn write_inner_line(out: &mut Vec<u8>, first: &[u8], others: &[&[u8]]) -> Result<(), AllocError>
    ensures { OnOk result (out.new.items ≡ out.old.items ++ (9 ∷ (first.now ++ flat_map (λ word. 32 ∷ word.now) others.now ++ 10 ∷ []))) }
{
    out.push(b'\t')?;
    write_line(out, first, others)
}

/// Writes the line of a tunable.
#[tactic(auto, unfolding(crate::specs::Canonical::tunable_line))]
fn write_tunable(alloc: Global, out: &mut Vec<u8>, name: &str, value: u32) -> Result<(), AllocError>
    ensures { OnOk result (out.new.items ≡ out.old.items ++ spec.tunable_line name.now value) }
{
    let value = format!(in alloc; "{}", value)?;
    write_line(out, b"tunable", &[name.as_bytes(), value.as_bytes()])
}

/// Writes the lines of all tunables.
fn write_tunables(alloc: Global, out: &mut Vec<u8>, tunables: Tunables) -> Result<(), AllocError>
    ensures { OnOk result (out.new.items ≡ out.old.items ++ spec.tunable_lines tunables) }
{
    write_tunable(alloc, out, "choose_local_tries", 0)?;
    write_tunable(alloc, out, "choose_local_fallback_tries", 0)?;
    write_tunable(alloc, out, "choose_total_tries", tunables.total_tries)?;
    write_tunable(alloc, out, "chooseleaf_descend_once", tunables.descend_once)?;
    write_tunable(alloc, out, "chooseleaf_vary_r", tunables.vary_r)?;
    write_tunable(alloc, out, "chooseleaf_stable", tunables.stable)?;
    Ok(())
}

/// Writes the line of a device.
#[tactic(auto, unfolding(crate::specs::Canonical::device_line))]
fn write_device(alloc: Global, out: &mut Vec<u8>, device: &Device) -> Result<(), AllocError>
    ensures { OnOk result (out.new.items ≡ out.old.items ++ spec.device_line device.now) }
{
    let id = format!(in alloc; "{}", device.id)?;
    write_line(
        out,
        b"device",
        &[id.as_bytes(), device.name.as_str().as_bytes()],
    )
}

/// Writes the lines of devices.
fn write_devices(alloc: Global, out: &mut Vec<u8>, devices: &[Device]) -> Result<(), AllocError>
    ensures { OnOk result (out.new.items ≡ out.old.items ++ flat_map spec.device_line devices.now) }
{
    for device in devices {
        write_device(alloc, out, device)?;
    }
    Ok(())
}

/// Writes the line of a type.
#[tactic(auto, unfolding(crate::specs::Canonical::type_line))]
fn write_type(alloc: Global, out: &mut Vec<u8>, declared: &TypeName) -> Result<(), AllocError>
    ensures { OnOk result (out.new.items ≡ out.old.items ++ spec.type_line declared.now) }
{
    let number = format!(in alloc; "{}", declared.number)?;
    write_line(
        out,
        b"type",
        &[number.as_bytes(), declared.name.as_str().as_bytes()],
    )
}

/// Writes the lines of types.
fn write_types(alloc: Global, out: &mut Vec<u8>, types: &[TypeName]) -> Result<(), AllocError>
    ensures { OnOk result (out.new.items ≡ out.old.items ++ flat_map spec.type_line types.now) }
{
    for declared in types {
        write_type(alloc, out, declared)?;
    }
    Ok(())
}

/// Writes the line of an item of a bucket.
#[tactic(auto, unfolding(crate::specs::Canonical::item_line))]
fn write_item(
    alloc: Global,
    out: &mut Vec<u8>,
    names: &NamesById<'_>,
    id: ItemId,
    weight: Weight,
) -> Result<(), AllocError>
    ensures { OnOk result (out.new.items ≡ out.old.items ++ spec.item_line names.now (id, weight)) }
{
    let weight = weight_text(alloc, weight)?;
    let name = names.of_item(id);
    write_inner_line(
        out,
        b"item",
        &[name.as_bytes(), "weight".as_bytes(), weight.as_bytes()],
    )
}

/// Writes the lines of a bucket's items.
fn write_items(
    alloc: Global,
    out: &mut Vec<u8>,
    names: &NamesById<'_>,
    items: &[(ItemId, Weight)],
) -> Result<(), AllocError>
    ensures { OnOk result (out.new.items ≡ out.old.items ++ flat_map (spec.item_line names.now) items.now) }
{
    for item in items {
        write_item(alloc, out, names, item.0, item.1)?;
    }
    Ok(())
}

/// Writes the lines of a bucket.
#[tactic(auto, using(crate::proofs::Joins::six), unfolding(crate::specs::Canonical::bucket_lines))]
fn write_bucket(
    alloc: Global,
    out: &mut Vec<u8>,
    names: &NamesById<'_>,
    bucket: &Bucket,
) -> Result<(), AllocError>
    ensures { OnOk result (out.new.items ≡ out.old.items ++ spec.bucket_lines names.now bucket.now) }
{
    let kind = names.of_type(bucket.kind_of);
    let name = bucket.name.as_str();
    let id = format!(in alloc; "{}", bucket.id.0)?;
    write_line(out, kind.as_bytes(), &[name.as_bytes(), "{".as_bytes()])?;
    write_inner_line(out, b"id", &[id.as_bytes()])?;
    write_inner_line(out, b"alg", &[bucket.alg.name().as_bytes()])?;
    write_inner_line(out, b"hash", &["0".as_bytes()])?;
    write_items(alloc, out, names, bucket.items.as_slice())?;
    write_line(out, b"}", &[])
}

/// Writes the lines of all buckets.
fn write_buckets(alloc: Global, out: &mut Vec<u8>, names: &NamesById<'_>) -> Result<(), AllocError>
    ensures { OnOk result (out.new.items ≡ out.old.items ++ flat_map (spec.bucket_lines names.now) names.now.buckets) }
{
    let buckets = names.buckets;
    for bucket in buckets {
        write_bucket(alloc, out, names, bucket)?;
    }
    Ok(())
}

/// Writes the line of a step that sets a number.
fn write_set_step(
    alloc: Global,
    out: &mut Vec<u8>,
    setting: &str,
    value: u32,
) -> Result<(), AllocError>
    ensures { OnOk result (out.new.items ≡ out.old.items ++ spec.inner_line (codes "step" ∷ setting.now ∷ decimal value ∷ [])) }
{
    let value = format!(in alloc; "{}", value)?;
    write_inner_line(out, b"step", &[setting.as_bytes(), value.as_bytes()])
}

/// Writes the line of a choose step.
fn write_choose_step<'a>(
    alloc: Global,
    out: &mut Vec<u8>,
    choose: &'a str,
    firstn: &'a str,
    n: i32,
    wanted: &'a str,
) -> Result<(), AllocError>
    ensures { OnOk result (out.new.items ≡ out.old.items ++ spec.inner_line (codes "step" ∷ choose.now ∷ firstn.now ∷ signed_decimal n ∷ codes "type" ∷ wanted.now ∷ [])) }
{
    let n = format!(in alloc; "{}", n)?;
    write_inner_line(
        out,
        b"step",
        &[
            choose.as_bytes(),
            firstn.as_bytes(),
            n.as_bytes(),
            "type".as_bytes(),
            wanted.as_bytes(),
        ],
    )
}

/// Writes the line of a step of a rule.
#[tactic(auto, unfolding(crate::specs::Canonical::step_line))]
fn write_step(
    alloc: Global,
    out: &mut Vec<u8>,
    names: &NamesById<'_>,
    step: Step,
) -> Result<(), AllocError>
    ensures { OnOk result (out.new.items ≡ out.old.items ++ spec.step_line names.now step) }
{
    match step {
        Step::Take(id) => {
            let name = names.of_item(id);
            write_inner_line(out, b"step", &["take".as_bytes(), name.as_bytes()])
        }
        Step::SetChooseTries(tries) => write_set_step(alloc, out, "set_choose_tries", tries),
        Step::SetLeafTries(tries) => write_set_step(alloc, out, "set_chooseleaf_tries", tries),
        Step::SetVaryR(value) => write_set_step(alloc, out, "set_chooseleaf_vary_r", value),
        Step::SetStable(value) => write_set_step(alloc, out, "set_chooseleaf_stable", value),
        Step::Choose {
            firstn,
            leaf,
            n,
            wanted,
        } => {
            let choose = if leaf { "chooseleaf" } else { "choose" };
            let firstn = if firstn { "firstn" } else { "indep" };
            let wanted = names.of_type(wanted);
            write_choose_step(alloc, out, choose, firstn, n, wanted)
        }
        Step::Emit => write_inner_line(out, b"step", &["emit".as_bytes()]),
    }
}

/// Writes the lines of a rule's steps.
fn write_steps(
    alloc: Global,
    out: &mut Vec<u8>,
    names: &NamesById<'_>,
    steps: &[Step],
) -> Result<(), AllocError>
    ensures { OnOk result (out.new.items ≡ out.old.items ++ flat_map (spec.step_line names.now) steps.now) }
{
    for step in steps {
        write_step(alloc, out, names, *step)?;
    }
    Ok(())
}

/// Returns the word of a rule's type.
fn erasure_text(erasure: bool) -> &'static str
    ensures { result.now ≡ spec.erasure_text erasure }
{
    if erasure { "erasure" } else { "replicated" }
}

/// Writes the lines of a rule.
#[tactic(auto, using(crate::proofs::Joins::five), unfolding(crate::specs::Canonical::rule_lines))]
fn write_rule(
    alloc: Global,
    out: &mut Vec<u8>,
    names: &NamesById<'_>,
    rule: &Rule,
) -> Result<(), AllocError>
    ensures { OnOk result (out.new.items ≡ out.old.items ++ spec.rule_lines names.now rule.now) }
{
    let id = format!(in alloc; "{}", rule.id)?;
    let name = rule.name.as_str();
    write_line(out, b"rule", &[name.as_bytes(), "{".as_bytes()])?;
    write_inner_line(out, b"id", &[id.as_bytes()])?;
    write_inner_line(out, b"type", &[erasure_text(rule.erasure).as_bytes()])?;
    write_steps(alloc, out, names, rule.steps.as_slice())?;
    write_line(out, b"}", &[])
}

/// Writes the lines of all rules.
fn write_rules(alloc: Global, out: &mut Vec<u8>, names: &NamesById<'_>) -> Result<(), AllocError>
    ensures { OnOk result (out.new.items ≡ out.old.items ++ flat_map (spec.rule_lines names.now) names.now.rules) }
{
    let rules = names.rules;
    for rule in rules {
        write_rule(alloc, out, names, rule)?;
    }
    Ok(())
}

/// Returns whether a bucket is straw2.
fn has_straw2(buckets: &[Bucket]) -> bool
    ensures { result ≡ list_any (λ b. is_straw2 b.alg) buckets.now }
{
    buckets.iter().any(|bucket| bucket.alg.is_straw2())
}

/// Begins the text of a map: with the mark by which a text asks for straw2, if a bucket needs it,
/// and the first heading.
#[tactic(auto, unfolding(crate::specs::Canonical::mark_line))]
fn begin_map(alloc: Global, names: &NamesById<'_>) -> Result<Vec<u8>, AllocError>
    ensures { IfOk result (λ out. out.items ≡ spec.mark_line names.now ++ codes "# begin crush map\n") }
{
    let mut out = Vec::new(alloc);
    if has_straw2(names.buckets) {
        write_line(&mut out, straw2_mark().as_bytes(), &[])?;
    }
    out.extend_from_slice(b"# begin crush map\n")?;
    Ok(out)
}

/// Writes the canonical text of a map.
///
/// `Err(AllocError)`: an allocation failed; nothing is changed.
#[tactic(auto, unfolding(crate::specs::Canonical::canonical))]
pub fn write_map(alloc: Global, map: &CrushMap) -> Result<Vec<u8>, AllocError>
    ensures text { IfOk result (λ text. text.items ≡ spec.canonical map.now) }
    ensures valid { IsMap map.now }
{
    let names = NamesById::new(alloc, map)?;
    let mut out = begin_map(alloc, &names)?;
    write_tunables(alloc, &mut out, names.tunables)?;
    out.extend_from_slice(b"\n# devices\n")?;
    write_devices(alloc, &mut out, names.devices)?;
    out.extend_from_slice(b"\n# types\n")?;
    write_types(alloc, &mut out, names.types)?;
    out.extend_from_slice(b"\n# buckets\n")?;
    write_buckets(alloc, &mut out, &names)?;
    out.extend_from_slice(b"\n# rules\n")?;
    write_rules(alloc, &mut out, &names)?;
    out.extend_from_slice(b"\n# end crush map\n")?;
    Ok(out)
}
