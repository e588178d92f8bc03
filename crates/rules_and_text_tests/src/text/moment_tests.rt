use csa_text::read_moment;
use std::test::Fail;

#[test]
fn moments_and_their_texts(rt: HostRuntime) -> Result<(), Fail> {
    let moment = read_moment(b"2024/2/29 9:05:07").ok_or("no moment")?;
    assert!(rt; moment.text().as_str() == "2024/02/29 09:05:07");
    assert!(rt; read_moment(b"2024/02/29 09:05:07") == Some(moment));
    assert!(rt; read_moment(b"2024/02/29") != read_moment(b"2024/02/29 00:00:00"));
    assert!(rt; read_moment(b"2023/02/29").is_none());
    Ok(())
}
