// The echo carriage: the numbers of echoes that make a witness and an acceptance, and frames without effect.
use crate::shared::{answer, group_of, triple};
use carriage::{Carriage, CarriageFault, Frame, Triple};
use echo::Echo;
use std::test::Fail;

// The triple of the lowest marked controller for place 0, which it tells controller 0 alone.
fn told(echo: &mut Echo, origin: u16) -> Result<Triple, Fail> {
    let x = triple(origin, 0, 1);
    echo.inject(Frame::new(origin, 0, b'i', x))?;
    echo.turn()?;
    Ok(x)
}

#[test]
fn seven_controllers_need_three_echoes_and_five(rt: HostRuntime) -> Result<(), Fail> {
    let group = group_of(7, 2, 5)?;
    let mut echo = Echo::new(group, 1)?;
    let x = told(&mut echo, 5)?;
    assert_eq!(rt; echo.witness(0, x), Ok(true));
    // a loop, since each frame changes the carriage
    for from in 5..7u16 {
        echo.inject(Frame::new(from, 1, b'e', x))?;
    }
    echo.inject(Frame::new(5, 2, b'e', x))?;
    echo.inject(Frame::new(5, 2, b'e', x))?;
    echo.turn()?;
    assert_eq!(rt; echo.witness(1, x), Ok(true));
    assert_eq!(rt; echo.witness(2, x), Ok(false));
    echo.turn()?;
    assert_eq!(rt; echo.held(1, x), Ok(false));
    echo.turn()?;
    assert_eq!(rt; echo.held(1, x), Ok(true));
    assert_eq!(rt; echo.held(2, x), Ok(false));
    Ok(())
}

#[test]
fn sixteen_controllers_need_six_echoes(rt: HostRuntime) -> Result<(), Fail> {
    let group = group_of(16, 5, 11)?;
    let mut echo = Echo::new(group, 4)?;
    let x = told(&mut echo, 11)?;
    // a loop, since each frame changes the carriage
    for from in 11..16u16 {
        echo.inject(Frame::new(from, 1, b'e', x))?;
        if from < 15 {
            echo.inject(Frame::new(from, 2, b'e', x))?;
        }
    }
    echo.turn()?;
    assert_eq!(rt; echo.witness(1, x), Ok(true));
    assert_eq!(rt; echo.witness(2, x), Ok(false));
    Ok(())
}

#[test]
fn frames_without_effect(rt: HostRuntime) -> Result<(), Fail> {
    let group = group_of(4, 1, 3)?;
    let mut echo = Echo::new(group, 2)?;
    let forged = triple(0, 1, 1);
    echo.inject(Frame::new(3, 1, b'i', forged))?;
    echo.inject(Frame::new(3, 1, b'e', forged))?;
    echo.turn()?;
    assert_eq!(rt; echo.witness(1, forged), Ok(false));
    assert_eq!(rt; answer(echo.inject(Frame::new(3, 1, b's', forged))), 16);
    Ok(())
}
